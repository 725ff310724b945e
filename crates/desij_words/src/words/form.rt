//! The form of the words, decided before their values are read.

ghost use Rattle.std.specs.Prelude.{◌≡◌, None, map, option_map};
ghost use Rattle.std.specs.String.{string_bytes};
ghost use Rattle.desij_words.specs.inner.Told.{argument_told};
ghost use Rattle.desij_words.specs.inner.Pass.{action_in, allows, may_follow, met_with};
ghost use Rattle.desij_words.specs.inner.Pass.{nothing_met, point_after, point_of};

use crate::words::word::{
    Argument, MOST_OUTPUTS, MOST_WORKERS, WordKind, is_file, number, read_word,
};

/// The first word.
#[derive(Clone, Copy)]
pub enum Action {
    Decompose,
    Measure,
}

impl Action {
    // Whether the value may stand in words of the command.
    fn allows(self, argument: Argument, value: &str) -> bool
        ensures { result ≡ allows self (argument_told argument) value.now }
    {
        match (self, argument) {
            (_, Argument::Workers) => number(value, MOST_WORKERS).is_some(),
            (Action::Measure, Argument::Positional) => number(value, MOST_OUTPUTS).is_some(),
            (Action::Measure, _) => false,
            (Action::Decompose, Argument::Steps) => true,
            (Action::Decompose, _) => is_file(value),
        }
    }
}

// Which arguments have their value.
#[derive(Clone, Copy, Default)]
struct Met {
    positional: bool,
    workers: bool,
    partition: bool,
    steps: bool,
}

impl Met {
    // One more value, where the argument has none and the command allows it.
    fn with(self, action: Action, argument: Argument, value: &str) -> Option<Met>
        ensures { result ≡ met_with action self (argument_told argument) value.now }
    {
        let is_met = match argument {
            Argument::Positional => self.positional,
            Argument::Workers => self.workers,
            Argument::Partition => self.partition,
            Argument::Steps => self.steps,
        };
        if is_met || !action.allows(argument, value) {
            return None;
        }
        let mut met = self;
        match argument {
            Argument::Positional => met.positional = true,
            Argument::Workers => met.workers = true,
            Argument::Partition => met.partition = true,
            Argument::Steps => met.steps = true,
        }
        Some(met)
    }
}

// Where the pass stands between two words: what has its value, and what asked for the next word.
#[derive(Clone, Copy)]
struct Pass {
    met: Met,
    asked: Option<Argument>,
}

impl Pass {
    // After one more word, where it may follow.
    fn after(self, action: Action, word: &str) -> Option<Pass>
        ensures { option_map point_of result ≡ point_after action (point_of self) word.now }
    {
        let read = match self.asked {
            Some(argument) => WordKind::Gives(argument, word),
            None => read_word(word),
        };
        match read {
            WordKind::Gives(argument, value) => {
                let met = self.met.with(action, argument, value)?;
                Some(Pass { met, asked: None })
            }
            WordKind::Asks(argument) => Some(Pass {
                met: self.met,
                asked: Some(argument),
            }),
            WordKind::Unknown => None,
        }
    }
}

// Whether the words after the first are of the command's form.
fn is_of_form(action: Action, words: &[String]) -> bool
    ensures { result
        ≡ may_follow action (map (λ w. string_bytes w) words.now) (nothing_met, None) }
{
    let mut pass = Pass {
        met: Met::default(),
        asked: None,
    };
    for word in words {
        match pass.after(action, word.as_str()) {
            Some(next) => pass = next,
            None => return false,
        }
    }
    pass.met.positional && pass.asked.is_none()
}

/// The command of words of the form; `None` where they aren't of it.
pub fn action_of(words: &[String]) -> Option<Action>
    ensures { result ≡ action_in (map (λ w. string_bytes w) words.now) }
{
    let [first, rest @ ..] = words else {
        return None;
    };
    let action = if first.as_str() == "decompose" {
        Action::Decompose
    } else if first.as_str() == "measure" {
        Action::Measure
    } else {
        return None;
    };
    if is_of_form(action, rest) {
        Some(action)
    } else {
        None
    }
}
