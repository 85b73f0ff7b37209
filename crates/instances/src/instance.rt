// Instances, and which of them a selection chooses (document 01, "Profile and table").
ghost use Rattle.std.specs.Prelude.{◌≡◌, [], ◌∷◌, ltb};
ghost use Rattle.laws.specs.Tests.{all};
ghost use Rattle.instances.specs.Instance.{key_of, key_at, selected, concerns, chosen, is_at, among, KeyFor, KeyOf, BlankInstance, IsNamed};

use numbers::{Address, blank_address};

// cfu 0, cfb 1, cfnr 2.
pub const PROCEDURES: usize = 3;

// A selection of every number, and of every service.
pub const EVERYNUMBER: u8 = 255;

pub const EVERYSERVICE: u8 = 0;

// An instance: its number by the place in the profile, its service by the code.
#[repr(C)]
#[derive(Clone, Copy)]
pub struct Instance {
    pub procedure: u8,
    pub number: u8,
    pub service: u8,
    pub address: Address,
}

// A procedure, a number and a service: at most one instance has all three.
#[derive(Clone, Copy, PartialEq, Eq)]
pub struct Key {
    pub procedure: u8,
    pub number: u8,
    pub service: u8,
}

// Instances of a procedure: of one number or, where that is 255, of all; of one service or, where that is 0, of all.
#[repr(C)]
#[derive(Clone, Copy)]
pub struct Selection {
    pub procedure: u8,
    pub number: u8,
    pub service: u8,
}

impl Instance {
    // What tells it apart.
    pub fn key(self) -> Key
        ensures { KeyFor self result }
    {
        Key {
            procedure: self.procedure,
            number: self.number,
            service: self.service,
        }
    }
}

// What stands where there is no instance.
pub fn blank_instance() -> Instance
    ensures { BlankInstance result }
{
    Instance {
        procedure: 0,
        number: 0,
        service: 0,
        address: blank_address(),
    }
}

// Whether `is` was asked for, or all were.
#[tactic(auto, unfolding(crate::specs::Instance::named))]
pub fn is_named(every: u8, asked: u8, is: u8) -> bool
    ensures { IsNamed every asked is result }
{
    asked == every || asked == is
}

#[tactic(auto, unfolding(crate::specs::Instance::selected))]
fn is_selected(sel: Selection, number: u8, service: u8) -> bool
    ensures { result ≡ selected sel number service }
{
    is_named(EVERYNUMBER, sel.number, number) && is_named(EVERYSERVICE, sel.service, service)
}

#[tactic(auto, unfolding(crate::specs::Instance::concerns))]
pub(crate) fn is_concerned(sel: Selection, procedure: u8) -> bool
    ensures { result ≡ concerns sel procedure }
{
    procedure == sel.procedure
}

#[tactic(auto, unfolding(crate::specs::Instance::chosen))]
pub(crate) fn is_chosen(sel: Selection, x: Instance) -> bool
    ensures { result ≡ chosen sel x }
{
    is_concerned(sel, x.procedure) && is_selected(sel, x.number, x.service)
}

#[tactic(auto, unfolding(crate::specs::Instance::is_at))]
pub(crate) fn is_at(key: Key, x: Instance) -> bool
    ensures { result ≡ is_at key.procedure key.number key.service x }
{
    x.key() == key
}

// Whether an instance comes before one of this key. By hand, since an activation is within its bound so: a derived order takes ten
// instructions more for each instance of the procedure, and the numbers of the keys twenty more for each instance.
pub(crate) fn is_before(key: Key, x: Instance) -> bool
    ensures { result ≡ ltb (key_of x) (key_at key) }
{
    if x.procedure != key.procedure {
        return x.procedure < key.procedure;
    }
    if x.number != key.number {
        return x.number < key.number;
    }
    x.service < key.service
}

// One number for a key: instances ascend by it.
#[tactic(auto, unfolding(crate::specs::Instance::key))]
pub fn key_of(key: Key) -> usize
    ensures { KeyOf key result }
{
    (key.procedure as usize * 256 + key.number as usize) * 256 + key.service as usize
}

// Whether a code stands among others. One by one: `contains` takes six instructions more for each instance that is judged.
fn is_among(code: u8, codes: &[u8]) -> bool
    ensures { result ≡ among code codes.now }
{
    codes.iter().any(|other| *other == code)
}

// Whether a key has a place in a profile of so many numbers and these services.
pub(crate) fn place_good(numbers: u8, services: &[u8], key: Key) -> bool
    ensures { result ≡ all (ltb key.number numbers ∷ among key.service services.now ∷ []) }
{
    key.number < numbers && is_among(key.service, services)
}
