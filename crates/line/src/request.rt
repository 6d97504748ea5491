// A command's words: its number, a key and a value. (The number is a word as it came; `Command::numbered` makes a command of them.)
#[derive(Clone, Copy, Debug, PartialEq, Eq)]
pub struct Request<K> {
    pub number: u32,
    pub key: K,
    pub value: u32,
}
