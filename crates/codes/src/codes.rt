// The codes (document 01, "Profile and table"; EN 300 207-1, clause 7.1).
ghost use Rattle.codes.specs.Codes.{ServicePlace, ServiceCode, TrunkReason};

// How many basic services there are.
pub const SERVICECOUNT: usize = 16;

// The basic services besides 0, all of them; ascending.
const CODES: [u8; SERVICECOUNT] = [1, 2, 3, 4, 5, 32, 33, 34, 35, 36, 37, 38, 39, 40, 41, 42];

const REASONCOUNT: usize = 4;

// The trunk's code for each of our reasons: unknown, cfu, cfb, cfnr. No code stands twice.
const TRUNKREASONS: [u8; REASONCOUNT] = [0, 3, 1, 2];

// How many procedures there are: cfu 0, cfb 1, cfnr 2.
pub const PROCEDURES: u8 = 3;

// The operations.
pub const ACTIVATION: u8 = 7;

pub const DEACTIVATION: u8 = 8;

pub const INTERROGATION: u8 = 11;

// Where a basic service stands among the sixteen; 16 where it is none of them.
pub fn service_place(code: u8) -> usize
    ensures { ServicePlace code result }
{
    CODES
        .iter()
        .position(|c| *c == code)
        .unwrap_or(SERVICECOUNT)
}

// Whether a request may name this service.
#[tactic(auto, using(laws::proofs::Cases::cases, laws::proofs::Picks::pick_last), unfolding(crate::specs::Codes::service_code))]
pub fn service_code(code: u8) -> bool
    ensures { ServiceCode code result }
{
    code == 0 || service_place(code) < SERVICECOUNT
}

// The trunk's code for one of our reasons; unknown for any other number.
pub fn trunkreason(reason: u8) -> u8
    ensures { TrunkReason reason result }
{
    TRUNKREASONS.get(usize::from(reason)).copied().unwrap_or(0)
}
