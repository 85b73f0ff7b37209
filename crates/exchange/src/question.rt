// What an arriving component asks, or the answer that it gets at once (document 01, "Replies, in the order checked").
ghost use Rattle.std.specs.Prelude.{◌≡◌};
ghost use Rattle.answers.specs.declared.answer.Problem.TheVariants.{General};
ghost use Rattle.answers.specs.declared.answer.Whose.TheVariants.{Null};
ghost use Rattle.answers.specs.declared.answer.Answer.TheVariants.{Reject};
ghost use Rattle.exchange.specs.Question.{not_above, duplicate, known_operation, invoked, question};
ghost use Rattle.exchange.specs.inner.Question.{question_read};

use answers::{Answer, Problem, Whose};
use codes::{ACTIVATION, DEACTIVATION, INTERROGATION};
use profile::Profile;
use requests::{Heard, Operation, Request, argument_at, hear};

// The operations as the numbers that an identifier's reader hands on.
const ACTIVATIONVALUE: i16 = ACTIVATION as i16;

const DEACTIVATIONVALUE: i16 = DEACTIVATION as i16;

const INTERROGATIONVALUE: i16 = INTERROGATION as i16;

// A request that must be judged, with its identifier and its operation's code.
#[derive(Clone, Copy)]
pub(crate) struct Asked {
    pub(crate) identifier: i16,
    pub(crate) operation: u8,
    pub(crate) request: Request,
}

fn not_above(identifier: i16, last: u16) -> bool
    ensures { result ≡ not_above identifier last }
{
    if identifier < 0 {
        return true;
    }
    identifier as u16 <= last
}

fn is_duplicate(p: Profile, last: u16, identifier: i16) -> bool
    ensures { result ≡ duplicate p last identifier }
{
    if p.counted == 1 {
        return not_above(identifier, last);
    }
    false
}

fn is_known(operation: i16) -> bool
    ensures { result ≡ known_operation operation }
{
    if operation == ACTIVATIONVALUE {
        return true;
    }
    if operation == DEACTIVATIONVALUE {
        return true;
    }
    operation == INTERROGATIONVALUE
}

// What an invoke component asks, whose argument stands at `at`, of the octets before `end`; or the answer at once.
fn invoked_by(
    p: Profile,
    last: u16,
    s: &[u8],
    identifier: i16,
    operation: Operation,
    at: usize,
    end: usize,
) -> Result<Asked, Answer>
    ensures { result ≡ question_read (invoked p last s.now identifier operation at end) }
{
    let whose = Whose::Own(identifier);
    if is_duplicate(p, last, identifier) {
        let problem = Problem::Invoke(0);
        return Err(Answer::Reject { whose, problem });
    }
    if !is_known(operation.value) {
        let problem = Problem::Invoke(1);
        return Err(Answer::Reject { whose, problem });
    }
    let Some(request) = argument_at(s, at, end, operation) else {
        let problem = Problem::Invoke(2);
        return Err(Answer::Reject { whose, problem });
    };
    Ok(Asked {
        identifier,
        operation: operation.value as u8,
        request,
    })
}

// A reject of a component without a readable identifier.
fn rejects_null(problem: u8) -> Answer
    ensures { result ≡ Reject Null (General problem) }
{
    let problem = Problem::General(problem);
    Answer::Reject {
        whose: Whose::Null,
        problem,
    }
}

// What the component `s` asks of an exchange that has handled `last`; or the answer at once. Not inlined, so that what it takes of the stack
// is free again when the request is applied.
#[inline(never)]
pub(crate) fn question_of(p: Profile, last: u16, s: &[u8]) -> Result<Asked, Answer>
    ensures { result ≡ question_read (question p last s.now) }
{
    match hear(s) {
        Heard::NotOne => Err(rejects_null(2)),
        Heard::Silent => Err(Answer::Silence),
        Heard::OtherTag => Err(rejects_null(0)),
        Heard::NoIdentifier => Err(rejects_null(1)),
        Heard::NoOperation { identifier } => {
            let whose = Whose::Own(identifier);
            let problem = Problem::General(1);
            Err(Answer::Reject { whose, problem })
        }
        Heard::Asks {
            identifier,
            operation,
            at,
            end,
        } => invoked_by(p, last, s, identifier, operation, at, end),
    }
}
