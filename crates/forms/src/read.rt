// The addresses and instances of a night sheet (document 01, "Night sheet").
ghost use Rattle.std.specs.Prelude.{◌≡◌};
ghost use Rattle.octets.specs.Found.{found};
ghost use Rattle.forms.specs.Instance.{field_at, service_of, address_from, instance_from};
ghost use Rattle.forms.specs.inner.Reading.{number_from_fields};

use crate::field::{field_below, fields_below};
use crate::form::Form;
use codes::service_code;
use instances::Instance;
use numbers::{Address, Number, number_good};
use octets::Found;

// The bounds of the fields of every form: forms of a number unknown and public, octets.
const FORMS: u32 = 2;

const OCTETS: u32 = 256;

// The bound of a count of digits or of octets of a subaddress.
const COUNTS: u32 = 21;

// The bound of a digit, which is kept as its character.
const DIGITSBELOW: u32 = 10;

const ZERO: u32 = 48;

// The number with which the address at `at` begins. Its type and its count are judged as those of a table's number.
fn number_in(s: &[u8], at: usize) -> Option<Found<Number>>
    ensures { result ≡ found (number_from_fields s.now at) }
{
    let form = field_below(s, at, FORMS)?;
    let kind = field_below(s, form.next, OCTETS)?;
    let count = field_below(s, kind.next, COUNTS)?;
    let fields = fields_below(s, count.next, count.value as usize, DIGITSBELOW, ZERO)?;
    let digits = fields.value;
    let number = Number {
        form: form.value as u8,
        kind: kind.value as u8,
        count: count.value as u8,
        digits,
    };
    if !number_good(number) {
        return None;
    }
    Some(Found {
        value: number,
        next: fields.next,
    })
}

// The address at `at`.
fn address_in(s: &[u8], at: usize) -> Option<Found<Address>>
    ensures { result ≡ found (address_from s.now at) }
{
    let number = number_in(s, at)?;
    let count = field_below(s, number.next, COUNTS)?;
    let fields = fields_below(s, count.next, count.value as usize, OCTETS, 0)?;
    let sub = fields.value;
    Some(Found {
        value: Address {
            number: number.value,
            subcount: count.value as u8,
            sub,
        },
        next: fields.next,
    })
}

// One of the sixteen services.
fn service_at(s: &[u8], at: usize) -> Option<Found<u32>>
    ensures { result ≡ found (field_at service_of s.now at) }
{
    let field = field_below(s, at, OCTETS)?;
    let code = field.value as u8;
    if code == 0 {
        return None;
    }
    if !service_code(code) {
        return None;
    }
    Some(field)
}

// The instance at `at`.
pub(crate) fn instance_at(f: Form, s: &[u8], at: usize) -> Option<Found<Instance>>
    ensures { result ≡ found (instance_from f s.now at) }
{
    let procedure = field_below(s, at, f.procedures as u32)?;
    let number = field_below(s, procedure.next, f.numbers as u32)?;
    let service = service_at(s, number.next)?;
    let address = address_in(s, service.next)?;
    Some(Found {
        value: Instance {
            procedure: procedure.value as u8,
            number: number.value as u8,
            service: service.value as u8,
            address: address.value,
        },
        next: address.next,
    })
}
