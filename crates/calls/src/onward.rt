// What a diverted call carries on (document 01, "Calls").
ghost use Rattle.calls.specs.Onward.{ReasonNo};
ghost use Rattle.calls.specs.inner.Onward.{OptionsFor, OptionAfter, PreferenceAfter, OriginalShown};

use crate::call::Call;
use profile::Profile;

// Why a call is diverted.
#[derive(Clone, Copy, Debug, PartialEq, Eq)]
pub enum Reason {
    Cfu,
    Cfb,
    Cfnr,
}

// The number of a reason.
impl From<Reason> for u8 {
    ghost from_gives = { ReasonNo };

    fn from(reason: Reason) -> u8 {
        match reason {
            Reason::Cfu => 1,
            Reason::Cfb => 2,
            Reason::Cfnr => 3,
        }
    }
}

// The notification option and the release flag for the calls of a number and a service.
#[derive(Clone, Copy)]
pub(crate) struct Options {
    pub(crate) option: u8,
    pub(crate) release: u8,
}

// A profile has one pair for all numbers and services.
#[tactic(auto, unfolding(crate::specs::Onward::options_of))]
pub(crate) fn options_for(p: Profile, c: Call) -> Options
    ensures { OptionsFor p c result }
{
    Options {
        option: p.option,
        release: p.release,
    }
}

#[tactic(auto, unfolding(crate::specs::Onward::option_after))]
pub(crate) fn option_after(p: Profile, c: Call) -> u8
    ensures { OptionAfter p c result }
{
    let own = options_for(p, c);
    if c.counter == 0 {
        own.option
    } else {
        c.option.min(own.option)
    }
}

#[tactic(auto, unfolding(crate::specs::Onward::preference_after))]
pub(crate) fn preference_after(c: Call) -> u8
    ensures { PreferenceAfter c result }
{
    if c.counter == 0 && c.preference == 1 {
        0
    } else {
        c.preference
    }
}

#[tactic(auto, unfolding(crate::specs::Onward::original_shown))]
pub(crate) fn original_shown(p: Profile, c: Call) -> u8
    ensures { OriginalShown p c result }
{
    let own = options_for(p, c);
    if c.counter == 0 {
        own.release
    } else {
        c.presentation
    }
}
