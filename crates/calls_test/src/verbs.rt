// The verbs of a script, by their names.

#[derive(Clone, Copy, Debug, PartialEq, Eq)]
pub enum Verb {
    Loop,
    End,
    Set,
    Add,
    Random,
    Seed,
    Text,
    More,
    Fold,
    Plain,
    Watch,
    Views,
    Length,
    Fill,
    Scatter,
    Poke1,
    Poke8,
    Raise,
    Keep,
    Back,
    Same,
    Create,
    Laid,
    Remove,
    Init,
    Options,
    Walk,
    List,
    Mount,
    MountAt,
    Umount,
    Route,
    Root,
    Lookup,
    Ids,
    Save,
    Restore,
}

impl Verb {
    // The verb of that name, of those that steer a run and that set, keep and compare bytes.
    fn step(name: &[u8]) -> Option<Verb> {
        Some(match name {
            b"loop" => Verb::Loop,
            b"end" => Verb::End,
            b"set" => Verb::Set,
            b"add" => Verb::Add,
            b"random" => Verb::Random,
            b"seed" => Verb::Seed,
            b"text" => Verb::Text,
            b"more" => Verb::More,
            b"fold" => Verb::Fold,
            b"plain" => Verb::Plain,
            b"watch" => Verb::Watch,
            b"views" => Verb::Views,
            b"length" => Verb::Length,
            b"fill" => Verb::Fill,
            b"scatter" => Verb::Scatter,
            b"poke1" => Verb::Poke1,
            b"poke8" => Verb::Poke8,
            b"raise" => Verb::Raise,
            b"keep" => Verb::Keep,
            b"back" => Verb::Back,
            b"same" => Verb::Same,
            _ => return None,
        })
    }

    // The verb of that name, of those that make a call.
    fn call(name: &[u8]) -> Option<Verb> {
        Some(match name {
            b"create" => Verb::Create,
            b"laid" => Verb::Laid,
            b"remove" => Verb::Remove,
            b"init" => Verb::Init,
            b"options" => Verb::Options,
            b"walk" => Verb::Walk,
            b"list" => Verb::List,
            b"mount" => Verb::Mount,
            b"mountat" => Verb::MountAt,
            b"umount" => Verb::Umount,
            b"route" => Verb::Route,
            b"root" => Verb::Root,
            b"lookup" => Verb::Lookup,
            b"ids" => Verb::Ids,
            b"save" => Verb::Save,
            b"restore" => Verb::Restore,
            _ => return None,
        })
    }

    // The verb of that name, as `counted` has it.
    pub fn from_name(name: &[u8]) -> Option<Verb> {
        let name = counted(name);
        Verb::step(name).or(Verb::call(name))
    }

    // Whether its call writes where it is done.
    pub fn writes(self) -> bool {
        matches!(
            self,
            Verb::Create | Verb::Remove | Verb::Mount | Verb::MountAt | Verb::Umount | Verb::Restore
        )
    }
}

// The part of a name that counts: all of it, but of 256 bytes or more what the cell of a name keeps, its length modulo 256 and its last seven bytes.
fn counted(name: &[u8]) -> &[u8] {
    if name.len() < 256 {
        return name;
    }
    let len = name.len() % 256;
    let last = &name[name.len() - 7..];
    if len <= 7 && last[len..].iter().all(|b| *b == 0) {
        return &last[..len];
    }
    &[]
}
