// One line of a session, answered on an instance in lent bytes.
#![tactic(auto)]

ghost use Rattle.rules.specs.Session.{parsed};
ghost use Rattle.decimal.specs.Text.{HasRoom};
ghost use Rattle.session_calls.specs.Answered.{Answered};

mod parsing;

use decimal::inner::Text;
use parsing::{Line, parse};
use session_calls::{look_line, mount_line, umount_line, walk_line};

// Answers one line, given without its line end: the text is laid without a line end (R137 to R152).
pub fn answer(s: &mut [u8], line: &[u8], text: &mut Text)
    requires { HasRoom text.old 64 }
    ensures { Answered s.old (parsed line.now) text.old text.new s.new }
{
    match parse(line) {
        Some(
            Line::Mount {
                path,
                tag,
                root,
                largest,
            },
        ) => mount_line(s, path, tag, root, largest, text),
        Some(Line::Umount(path)) => umount_line(s, path, text),
        Some(Line::Walk(path)) => walk_line(s, path, text),
        Some(Line::Look { node, name }) => look_line(s, node, name, text),
        None => session_text::put_question(text),
    }
}
