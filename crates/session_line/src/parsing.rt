// A line of a session, read into one of its four forms.
ghost use Rattle.std.specs.Prelude.{◌≡◌, ◌≤◌, ◌∷◌, IfSome};
ghost use Rattle.rules.specs.Session.{words, parsed};
ghost use Rattle.session_line.specs.Fields.{left_of, left, next_in, number_next, field_in, first, number_first, only, line_in, look_by, mount_by, form_by};

// The four verbs (R138 to R141).
const UMOUNT: &[u8] = b"umount";

const WALK: &[u8] = b"walk";

const LOOK: &[u8] = b"look";

const MOUNT: &[u8] = b"mount";

// The largest tag (R149).
const MAX_TAG: u64 = u32::MAX as u64;

// The four forms of a line (R138 to R141).
#[derive(Clone, Copy)]
pub enum Line<'a> {
    Mount {
        path: &'a [u8],
        tag: u32,
        root: u64,
        largest: u64,
    },
    Umount(&'a [u8]),
    Walk(&'a [u8]),
    Look {
        node: u64,
        name: &'a [u8],
    },
}

// The bytes before the first space, and those behind it, where there is one (R146).
fn cut(line: &[u8]) -> (&[u8], Option<&[u8]>)
    ensures { words line.now ≡ result.0.now ∷ left_of result.1 }
{
    let end = path::components::part_end(line, 0, b' ');
    let (field, behind) = line.split_at(end);
    (field, behind.get(1..))
}

// The fields of a line that are still to come: what is left of it, none behind the last field.
#[derive(Clone, Copy)]
struct Fields<'a> {
    rest: Option<&'a [u8]>,
}

impl<'a> Fields<'a> {
    // The next field, where it is not empty, and the fields behind it (R145, R146).
    #[tactic(auto, using(crate::proofs::Fields::first_empty, crate::proofs::Fields::first_filled))]
    fn next(self) -> Option<(&'a [u8], Fields<'a>)>
        ensures { next_in result ≡ first (left self.entry) }
    {
        let (field, rest) = cut(self.rest?);
        if field.is_empty() {
            return None;
        }
        Some((field, Fields { rest }))
    }

    // The next field as a number of at most max, and the fields behind it (R148, R149).
    #[inline(always)]
    #[tactic(auto, using(crate::proofs::Forms::at_most))]
    fn number(self, max: u64) -> Option<(u64, Fields<'a>)>
        ensures read { number_next result ≡ number_first max (left self.entry) }
        ensures bound { IfSome result (λ n. n.0 ≤ max) }
    {
        let (field, fields) = self.next()?;
        Some((decimal::read(field, max)?, fields))
    }

    // The last field, where just one is left and it is not empty (R145, R146).
    #[tactic(auto, using(crate::proofs::Fields::none_alone))]
    fn last(self) -> Option<&'a [u8]>
        ensures { field_in result ≡ only (left self.entry) }
    {
        let (field, fields) = self.next()?;
        if fields.rest.is_some() {
            return None;
        }
        Some(field)
    }
}

// NODE and NAME of a look line (R141, R149).
fn look(fields: Fields<'_>) -> Option<Line<'_>>
    ensures { line_in result ≡ look_by (left fields.entry) }
{
    let (node, fields) = fields.number(u64::MAX)?;
    Some(Line::Look {
        node,
        name: fields.last()?,
    })
}

// PATH, TAG, ROOT and MAX of a mount line (R138, R149).
fn mount(fields: Fields<'_>) -> Option<Line<'_>>
    ensures { line_in result ≡ mount_by (left fields.entry) }
{
    let (path, fields) = fields.next()?;
    let (tag, fields) = fields.number(MAX_TAG)?;
    let (root, fields) = fields.number(u64::MAX)?;
    let largest = decimal::read(fields.last()?, u64::MAX)?;
    Some(Line::Mount {
        path,
        tag: tag as u32,
        root,
        largest,
    })
}

// The form that the verb says, by the fields behind it (R138 to R141, R147).
fn form<'a>(verb: &[u8], fields: Fields<'a>) -> Option<Line<'a>>
    ensures { line_in result ≡ form_by verb.now (left fields.entry) }
{
    if verb == UMOUNT {
        return Some(Line::Umount(fields.last()?));
    }
    if verb == WALK {
        return Some(Line::Walk(fields.last()?));
    }
    if verb == LOOK {
        return look(fields);
    }
    if verb == MOUNT {
        return mount(fields);
    }
    None
}

// The line by its fields, where it has one of the four forms; a line over 8,192 bytes has none (R138 to R141, R145 to R150).
pub fn parse(line: &[u8]) -> Option<Line<'_>>
    ensures { line_in result ≡ parsed line.now }
{
    if rules::MAX_LINE < line.len() {
        return None;
    }
    let (verb, fields) = Fields { rest: Some(line) }.next()?;
    form(verb, fields)
}
