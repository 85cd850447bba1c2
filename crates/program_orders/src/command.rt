// The commands of a script, by their words.
#[derive(Clone, Copy)]
pub enum Command {
    Load,
    Refused,
    Keep,
    Restore,
    Compare,
    Spoil,
    Feed,
    Bytes,
    Finish,
    Result,
    Facts,
    Numbers,
}

pub const COMMANDS: [(&[u8], Command); 12] = [
    (b"load", Command::Load),
    (b"refused", Command::Refused),
    (b"keep", Command::Keep),
    (b"restore", Command::Restore),
    (b"compare", Command::Compare),
    (b"spoil", Command::Spoil),
    (b"feed", Command::Feed),
    (b"bytes", Command::Bytes),
    (b"finish", Command::Finish),
    (b"result", Command::Result),
    (b"facts", Command::Facts),
    (b"numbers", Command::Numbers),
];
