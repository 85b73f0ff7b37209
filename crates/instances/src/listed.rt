// The result of an interrogation is written from the run itself (document 01, "Replies"): no entry is kept, and no list of them.
ghost use Rattle.std.specs.Prelude.{◌≡◌, ◌+◌, ◌≤◌, length};
ghost use Rattle.laws.specs.Over.{Wrote};
ghost use Rattle.lists.specs.Entry.{entry_of, entry_octets, entry_size};
ghost use Rattle.instances.specs.Run.{PutListed};

use crate::few::Few;
use crate::instance::{Instance, Selection, is_chosen};
use crate::run::{Run, served_number};
use lists::{INSTANCESMOST, put_list_head};
use numbers::{Number, address_size, number_size, put_number, put_sub};
use octets::put_head;
use profile::Profile;
use values::put_enumerated;

// How many octets the entry of an instance takes.
fn listed_size(served: Number, x: Instance) -> usize
    ensures { (result ≡ length (entry_octets (entry_of served x.service x.procedure x.address))) × (result ≤ entry_size) }
{
    8 + number_size(served) + address_size(x.address)
}

// The entry of an instance. The crate `lists` writes the same octets of an `Entry`, a record of 70 octets that would be copied here.
fn write_listed(out: &mut [u8], at: usize, served: Number, x: Instance) -> usize
    requires { at + length (entry_octets (entry_of served x.service x.procedure x.address)) ≤ length out.old }
    ensures { Wrote out.old at (entry_octets (entry_of served x.service x.procedure x.address)) result out.new }
{
    let address = x.address;
    let number = address.number;
    let inner = address_size(address);
    let size = 6 + number_size(served) + inner;
    let p = put_head(out, at, 0x30, size as u16);
    let q = put_number(out, p, served);
    let k = put_enumerated(out, q, x.service);
    let m = put_enumerated(out, k, x.procedure);
    let a = put_head(out, m, 0x30, (inner - 2) as u16);
    let b = put_number(out, a, number);
    put_sub(out, b, address)
}

impl Run {
    // The list of the selected instances, in order, at the start of the output, and how many octets it takes; nothing where there is
    // no room. One function, since each further one that took the run would copy it.
    pub fn put_listed(self, out: &mut [u8], identifier: i16, p: Profile, sel: Selection) -> usize
        ensures { PutListed out.old identifier p sel self result out.new }
    {
        let held = self.instances();
        let numbers = p.numbers;
        let mut places: Few<u8, INSTANCESMOST> = Few::none(0);
        let mut size: usize = 0;
        for (i, x) in held.iter().enumerate() {
            if is_chosen(sel, *x) {
                if places.len() < INSTANCESMOST {
                    let served = served_number(&numbers, x.number);
                    size += listed_size(served, *x);
                    places.push(i as u8);
                }
            }
        }
        let mut at = put_list_head(out, identifier, size);
        if at == 0 {
            return 0;
        }
        for place in places.as_slice() {
            let x = held[*place as usize];
            let served = served_number(&numbers, x.number);
            at = write_listed(out, at, served, x);
        }
        at
    }
}
