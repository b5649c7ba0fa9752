ghost use Rattle.std.specs.Prelude.{◌≡◌};
ghost use Rattle.clone_tasks.specs.Rules.{rule_at, rule_of, sending_rule, is_stale, takes_part};
ghost use Rattle.clone_tasks.specs.Rules.{connecting, next_in};
ghost use Rattle.clone_tasks.specs.Tables.{any_awaits_end};

use crate::{Link, Phase, Rule, Standing, TaskTable};

impl TaskTable {
    /// The rule by which a task acts next, which connected last in the incarnation `made`.
    pub fn rule(&self, made: Option<u32>, task: u8, link: Link) -> Rule
        ensures { result ≡ rule_at made self.now task link }
    {
        if is_stale(made, self.incarnation(), link) {
            Rule::Stale
        } else {
            self.present_rule(task, link)
        }
    }

    // The rule by which a task acts whose connection is of the present incarnation.
    fn present_rule(&self, task: u8, link: Link) -> Rule
        ensures { result ≡ rule_of self.now task link }
    {
        let standing = self.standing(task);
        if !self.takes_part(task) {
            Rule::Nothing
        } else if link.is_absent() && !self.phase.is_done() {
            self.connecting(task, standing)
        } else if standing.awaits() {
            Rule::Receive
        } else {
            self.next_in(task, standing)
        }
    }

    /// The rule by which a task sends next, as far as the table knows of its connection.
    pub(crate) fn sending_rule(&self, task: u8) -> Rule
        ensures { result ≡ sending_rule self.now task }
    {
        let link = if self.standing(task).is_apart() {
            Link::Absent
        } else {
            Link::Up
        };
        self.present_rule(task, link)
    }

    // There is such a task, the clone goes on, and the task has a part in what is left.
    fn takes_part(&self, task: u8) -> bool
        ensures { result ≡ takes_part self.now task }
    {
        task < self.count && self.is_running() && (!self.phase.is_done() || task == 0)
    }

    // The first task opens the session or comes back to it, and the others follow it.
    fn connecting(&self, task: u8, standing: Standing) -> Rule
        ensures { result ≡ connecting self.now task standing }
    {
        if standing.is_apart() && (task == 0 || self.joined) {
            Rule::Connect
        } else {
            Rule::Nothing
        }
    }

    // What a task does that awaits nothing.
    fn next_in(&self, task: u8, standing: Standing) -> Rule
        ensures { result ≡ next_in self.now.phase self.now task standing }
    {
        let finished = self.marks.all_finished();
        match self.phase {
            Phase::Opening => Rule::Nothing,
            Phase::Done => Rule::Complete,
            Phase::Copying { stage } => {
                if !standing.is_apart() && task == 0 && finished && !self.any_awaits_end() {
                    Rule::Acknowledge { stage }
                } else if standing.is_ready() && !finished {
                    Rule::Execute { stage }
                } else {
                    Rule::Nothing
                }
            }
        }
    }

    fn any_awaits_end(&self) -> bool
        ensures { result ≡ any_awaits_end self.now }
    {
        self.standings.iter().any(|standing| standing.awaits_end())
    }
}

// The connection was made in an earlier incarnation.
fn is_stale(made: Option<u32>, incarnation: u32, link: Link) -> bool
    ensures { result ≡ is_stale made incarnation link }
{
    match (link, made) {
        (Link::Up | Link::Lost, Some(made)) => made < incarnation,
        _ => false,
    }
}
