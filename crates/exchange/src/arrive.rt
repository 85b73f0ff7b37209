// Each arriving component turns a table into the next table and a reply (document 01, "Replies", "Local refusals").
ghost use Rattle.std.specs.Prelude.{◌≡◌};
ghost use Rattle.exchange.specs.Table.{table_of};
ghost use Rattle.exchange.specs.Step.{last_after};
ghost use Rattle.exchange.specs.Arrive.{Arrives};
ghost use Rattle.exchange.specs.inner.Arrived.{arrived_refused, arrived_answered};

use crate::question::question_of;
use crate::table::{LASTMOST, Table};
use answers::{Answer, put_answer};
use codes::INTERROGATION;
use instances::Run;
use profile::{Profile, read_access};
use refusals::{COMPONENTMOST, OUTPUTLEAST, Refusal};
use rules::{apply_request, judge_request, renew_request, selection_of};

// What an arriving component is answered, and how many octets the reply has.
#[derive(Clone, Copy)]
pub struct Answered {
    pub answer: Answer,
    pub count: usize,
}

// The next table, and the answer, or why the component is not looked at.
#[derive(Clone, Copy)]
pub struct Arrived {
    pub table: Table,
    pub outcome: Result<Answered, Refusal>,
}

fn refuses(last: u16, run: Run, refusal: Refusal) -> Arrived
    ensures { result ≡ arrived_refused (table_of last run) refusal }
{
    let table = Table { last, run };
    Arrived {
        table,
        outcome: Err(refusal),
    }
}

fn answers(last: u16, run: Run, answer: Answer, count: usize) -> Arrived
    ensures { result ≡ arrived_answered (table_of last run) answer count }
{
    Arrived {
        table: Table { last, run },
        outcome: Ok(Answered { answer, count }),
    }
}

// The last handled identifier moves on a counted end alone, to the request's own; a negative one is never handled there.
fn last_after(p: Profile, identifier: i16, last: u16) -> u16
    ensures { result ≡ last_after p identifier last }
{
    if identifier < 0 {
        return last;
    }
    if p.counted == 1 {
        return identifier as u16;
    }
    last
}

impl Table {
    // The next table and the reply to a component, which is written at the start of the output. One function, since each further one that
    // took the table would copy it; and each branch returns, since one that gave its value to the expression around it would copy that.
    pub fn arrive(self, access: &[u8], component: &[u8], out: &mut [u8]) -> Arrived
        ensures { Arrives access.now self component.now out.old result out.new }
    {
        if out.len() < OUTPUTLEAST {
            return refuses(self.last, self.run, Refusal::ShortOutput);
        }
        if COMPONENTMOST < component.len() {
            return refuses(self.last, self.run, Refusal::LongComponent);
        }
        let Some(p) = read_access(access) else {
            return refuses(self.last, self.run, Refusal::BadProfile);
        };
        if LASTMOST < self.last {
            return refuses(self.last, self.run, Refusal::BadTable);
        }
        if !self.run.good(p) {
            return refuses(self.last, self.run, Refusal::BadTable);
        }
        let asked = match question_of(p, self.last, component) {
            Ok(asked) => asked,
            Err(answer) => {
                let count = put_answer(out, answer);
                return answers(self.last, self.run, answer, count);
            }
        };
        let identifier = asked.identifier;
        let last = last_after(p, identifier, self.last);
        match judge_request(p, asked.operation, asked.request, self.run) {
            Err(error) => {
                let answer = Answer::Error {
                    identifier,
                    value: u8::from(error),
                };
                let count = put_answer(out, answer);
                return answers(last, self.run, answer, count);
            }
            Ok(renews) => {
                if asked.operation == INTERROGATION {
                    let sel = selection_of(p, asked.request);
                    let answer = Answer::Listing { identifier };
                    let count = self.run.put_listed(out, identifier, p, sel);
                    return answers(last, self.run, answer, count);
                }
                let next = if renews {
                    renew_request(p, asked.request, self.run)
                } else {
                    apply_request(p, asked.operation, asked.request, self.run)
                };
                let answer = Answer::Result { identifier };
                let count = put_answer(out, answer);
                return answers(last, next, answer, count);
            }
        }
    }
}
