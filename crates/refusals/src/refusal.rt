// Why something is refused, with document 01's words, in the order of the numbers (document 01, "Local refusals").
ghost use Rattle.refusals.specs.Refusal.{RefusalNo};

#[derive(Clone, Copy, PartialEq, Eq, Debug)]
pub enum Refusal {
    // "lent output under 707 octets (any component) or 1,613 (sheet)"
    ShortOutput,
    // "component over 1,024 octets"
    LongComponent,
    // "profile breaks a rule above"
    BadProfile,
    // "table or picture record breaks a rule above"
    BadTable,
    // "call record bad"
    BadCall,
    // "diversion limit reached"
    LimitReached,
    // "end: a request is outstanding"
    Outstanding,
    // "end: identifier 32,767 already used"
    Exhausted,
    // "sheet not a form 1 sheet"
    BadSheet,
    // "end: its request has a procedure or service code not above, or a number or subaddress not of the kinds, types and sizes a table
    // holds"
    BadRequest,
}

// "lent output under 707 octets (any component)", "component over 1,024 octets"
pub const OUTPUTLEAST: usize = 707;

pub const COMPONENTMOST: usize = 1024;

// The number of a refusal.
impl From<Refusal> for u8 {
    ghost from_gives = { RefusalNo };

    fn from(refusal: Refusal) -> u8 {
        match refusal {
            Refusal::ShortOutput => 1,
            Refusal::LongComponent => 2,
            Refusal::BadProfile => 3,
            Refusal::BadTable => 4,
            Refusal::BadCall => 5,
            Refusal::LimitReached => 6,
            Refusal::Outstanding => 7,
            Refusal::Exhausted => 8,
            Refusal::BadSheet => 9,
            Refusal::BadRequest => 10,
        }
    }
}
