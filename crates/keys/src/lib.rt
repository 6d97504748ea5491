// How the map and the set read a command and word an answer. A key has no value in a set: an insert stores 0, an answer tells 0, and
// command 2, which writes a value, is unknown.
#![tactic(auto)]

ghost use Rattle.std.specs.Prelude.{◌≡◌};
ghost use Rattle.rules.specs.Reading.{as_set, read_as, set_command, value_as};
ghost use Rattle.heads.specs.Worded.{code_of, meant};
ghost use Rattle.keys.specs.Told.{reading};

use heads::{Answer, Code, Command};
use node::Key;

#[derive(Clone, Copy, Debug, PartialEq, Eq)]
pub enum Reading {
    AsMap,
    AsSet,
}

// The command by which the map does what the set's command is.
fn of_set<K: Key>(command: Command<K>) -> Command<K>
    ensures { meant K.number result ≡ set_command (meant K.number command) }
{
    match command {
        Command::Write(_, _) => Command::Unknown,
        Command::Insert(key, _) => Command::Insert(key, 0),
        other => other,
    }
}

// The map's answer as the set words it: the value is 0, but a COUNT's.
fn for_set<K: Key>(r: Answer<K>) -> Answer<K>
    ensures { result ≡ record { code = r.code; key = r.key; value = value_as as_set (code_of r.code) r.value; count = r.count } }
{
    if r.code == Code::Count {
        return r;
    }
    Answer { value: 0, ..r }
}

impl Reading {
    // The command by which the map does what this command is.
    pub fn command<K: Key>(self, command: Command<K>) -> Command<K>
        ensures { meant K.number result ≡ read_as (reading self) (meant K.number command) }
    {
        match self {
            Reading::AsMap => command,
            Reading::AsSet => of_set(command),
        }
    }

    // The map's answer in this reading's words.
    pub fn answer<K: Key>(self, r: Answer<K>) -> Answer<K>
        ensures { result ≡ record { code = r.code; key = r.key; value = value_as (reading self) (code_of r.code) r.value; count = r.count } }
    {
        match self {
            Reading::AsMap => r,
            Reading::AsSet => for_set(r),
        }
    }
}
