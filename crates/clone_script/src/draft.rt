//! What a script has given so far: its lines in their order, the sizes of pool and ring, and how
//! its clone is taken. Each number that is given is in its range.
ghost use Rattle.std.specs.Prelude.{◌≡◌, ◌↔◌, IfOk, IsTrue};
ghost use Rattle.clone_model.specs.Config.{IsConfig};
ghost use Rattle.clone_script.specs.Given.{IsTerms, config_of, nothing, terms_of};
ghost use Rattle.clone_script.specs.Script.{IsPassed, IsHeadInRange};
ghost use Rattle.clone_script.specs.Reading.{Takes, TakesSize};

use crate::head::{HeadLine, parse_head};
use crate::line::parse_line;
use crate::terms::{Terms, USUAL_LIMIT, USUAL_TASKS, USUAL_VERSION};
use crate::{Line, Script};
use clone_model::Config;
use std::alloc::{AllocError, Global};
use std::marker::Model;

/// What the texts of a script have given so far.
#[derive(Drop)]
pub struct Draft {
    pool: Option<u32>,
    ring: Option<u64>,
    version: Option<u16>,
    tasks: Option<u8>,
    limit: Option<u32>,
    lines: Vec<Line>,
}

impl Model for Draft {
    ghost use Rattle.std.specs.Prelude.{IfSome};
    ghost use Rattle.clone_model.specs.Config.{IsPoolSize, IsRingSize};
    ghost use Rattle.clone_script.specs.Given.{Given, IsLimit, IsTaskCount, IsVersion};

    ghost Value = { Given };

    ghost view = { λ d. record {
      pool = d.pool;
      ring = d.ring;
      version = d.version;
      tasks = d.tasks;
      limit = d.limit;
      lines = d.lines.items;
    } };

    ghost invariant = { λ d. IfSome d.pool IsPoolSize × IfSome d.ring IsRingSize
        × IfSome d.version IsVersion × IfSome d.tasks IsTaskCount × IfSome d.limit IsLimit };
}

impl Draft {
    /// Nothing is given. This takes no memory.
    pub fn new(alloc: Global) -> Draft
        ensures { result ≡ nothing }
    {
        Draft {
            pool: None,
            ring: None,
            version: None,
            tasks: None,
            limit: None,
            lines: Vec::new(alloc),
        }
    }

    /// Takes what the next text gives. False where the text is outside the grammar.
    pub fn take(&mut self, alloc: Global, text: &[u8]) -> Result<bool, AllocError>
        ensures { IfOk result (λ taken. Takes self.old text.now self.new taken) }
    {
        if is_passed(text) {
            return Ok(true);
        }
        if let Some(head) = parse_head(text) {
            return Ok(self.take_size(head));
        }
        let Some(line) = parse_line(alloc, text)? else {
            return Ok(false);
        };
        self.lines.push(line)?;
        Ok(true)
    }

    /// Takes the size of a head line. False where it may not stand here.
    fn take_size(&mut self, head: HeadLine) -> bool
        requires { IsHeadInRange head }
        ensures { TakesSize self.old head self.new result }
    {
        if !self.lines.is_empty() {
            return false;
        }
        match head {
            HeadLine::Pool { frames } if self.pool.is_none() => self.pool = Some(frames),
            HeadLine::Ring { bytes } if self.ring.is_none() => self.ring = Some(bytes),
            HeadLine::Version { version } if self.version.is_none() => {
                self.version = Some(version);
            }
            HeadLine::Tasks { tasks } if self.tasks.is_none() => self.tasks = Some(tasks),
            HeadLine::Limit { losses } if self.limit.is_none() => self.limit = Some(losses),
            _ => return false,
        }
        true
    }

    /// The script, where no text is left.
    pub fn finish(self) -> Script
        ensures config { result.config ≡ config_of self }
        ensures lines { result.lines.items ≡ self.lines }
        ensures sizes { IsConfig result.config }
        ensures terms { result.terms ≡ terms_of self }
        ensures fit { IsTerms result.terms }
    {
        let usual = Config::usual();
        Script {
            config: Config {
                pool: self.pool.unwrap_or(usual.pool),
                ring: self.ring.unwrap_or(usual.ring),
            },
            terms: Terms {
                version: self.version.unwrap_or(USUAL_VERSION),
                tasks: self.tasks.unwrap_or(USUAL_TASKS),
                limit: self.limit.unwrap_or(USUAL_LIMIT),
            },
            lines: self.lines,
        }
    }
}

/// Whether the text is empty or a comment.
fn is_passed(text: &[u8]) -> bool
    ensures { IsTrue result ↔ IsPassed text.now }
{
    matches!(text, [] | [b'#', ..])
}
