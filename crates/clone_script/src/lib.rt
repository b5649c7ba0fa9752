//! The lines of scripts with their texts, and the reader of scripts: the sizes and the lines of a
//! script, or the number of the first text that is outside the grammar.
//!
//! A script is texts that line feeds end; the last may lack its line feed. An empty text and one
//! that begins with `#` are passed over. Ahead of all lines there may be head lines, `pool N`,
//! `ring N`, `version N`, `tasks N` and `limit N`, each at most once; they give the sizes of the
//! donor's pool and ring, and how the clone is taken, and what isn't given is as usual. Each other
//! text is a line exactly where it is the one text of a `Line` whose numbers and whose value are in
//! their ranges. So no other spelling is read: a word, one blank before each field, numbers in
//! decimal digits with no zero in front, and values in lower-case hex digits or as a dash.
#![tactic(auto)]

mod draft;
mod fields;
mod head;
mod line;
mod lines;
mod read;
mod split;
mod terms;
mod text;

pub use lines::Line;
pub use read::{LONGEST_SCRIPT, ReadRefusal, Script, read_script};
pub use terms::{Terms, USUAL_LIMIT, USUAL_TASKS, USUAL_VERSION};
pub use text::line_text;
