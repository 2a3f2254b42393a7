//! The lines of the chains under a lock.
ghost use Rattle.std.specs.Prelude.{◌≡◌, ◌<◌, ◌≤◌, ◌+◌, ◌∷◌, [], ◌++◌, None, IfOk, OnOk, codes, length, string_bytes};
ghost use Rattle.std.specs.List.{filter};
ghost use Rattle.std.specs.Option.{option_copied};
ghost use Rattle.asl_lock_expr.specs.Order.{lock_cmp};
ghost use Rattle.asl_explain.specs.Told.{Words, Note, step_words, is_register, is_argument, widens, verb_of, place_by, first_line, behind_line, line_of, step_before, lines_from, left_line, ends_lines, chain_lines, is_own, own_first, chains_of, chains_under, container_line, under_lines, told_chains, told_of, others_told};
ghost use Rattle.asl_explain.specs.Telling.{Tells, given};
ghost use Rattle.asl_explain.specs.TellingChains.{is_chosen, needs_of, under_now, under_of};

use crate::explained_value::{Chain, Listed, Need, Step, Why};
use crate::notes::note_of;
use crate::search::Statements;
use crate::text::{
    AT_END, MAX_CONTAINED, MAX_STEPS, NO_PLACE, Teller, plural, push_between, push_note,
};
use asl_class_text::push_padded;
use asl_code::{Base, Lock};
use std::alloc::{AllocError, Global};
use std::cmp::Ordering;
use std::fmt::Write;

/// The statements of the chains of a need, perhaps without the first, and the others that have it.
pub(crate) fn statements_of(
    alloc: Global,
    need: &Need,
    others: Option<&Statements>,
    without_first: bool,
) -> Result<Statements, AllocError> {
    let mut statements = match others {
        Some(others) => others.copied()?,
        None => Statements::none(alloc),
    };
    let mut is_left = without_first;
    for chain in need.chains.as_slice() {
        if !is_left {
            if let Some(step) = chain.steps.as_slice().first() {
                statements.add(step.pc)?;
            }
        }
        is_left = false;
    }
    Ok(statements)
}

/// Adds how many locks are not told.
pub(crate) fn push_left(text: &mut String, left: usize) -> Result<(), AllocError> {
    if left == 0 {
        return Ok(());
    }
    let s = plural(left);
    write!(
        text,
        "      contains {left} more lock{s} (--all shows them)\n"
    )
}

/// Adds how many steps of a chain are not told.
fn push_left_steps(text: &mut String, left: usize) -> Result<(), AllocError>
    ensures { OnOk result (string_bytes text.new ≡ string_bytes text.old ++ left_line left) }
{
    write!(text, "      .. and {left} more steps (--all shows them)\n")
}

/// A need with its number among those under a lock of a list.
#[derive(Clone, Copy)]
pub struct Numbered<'a> {
    pub need: &'a Need,
    pub number: usize,
}

/// A chain with the need whose lock it comes to.
#[derive(Clone, Copy)]
pub struct Under<'a> {
    pub need: &'a Need,
    pub chain: &'a Chain,
}

/// Which lock comes first.
#[tactic(auto, using(asl_lock_expr::proofs::Derived::derived_is))]
fn compare(a: &Lock, b: &Lock) -> Ordering
    ensures { result ≡ lock_cmp a.now b.now }
{
    a.cmp(b)
}

/// Whether a need is of the lock itself.
fn is_own(lock: &Lock, need: &Need) -> bool
    ensures { result ≡ is_own lock.now need.now }
{
    compare(&need.lock, lock).is_eq()
}

/// Whether a need is of the lock itself, or of another, as is asked.
fn is_chosen(own: bool, lock: &Lock, need: &Need) -> bool
    ensures { result ≡ is_chosen own lock.now need.now }
{
    if own {
        is_own(lock, need)
    } else {
        !is_own(lock, need)
    }
}

/// Adds those of the needs that are of the lock itself, or the others.
fn add_needs<'a>(
    needs: &mut Vec<Numbered<'a>>,
    lock: &Lock,
    all: &'a [Need],
    own: bool,
) -> Result<(), AllocError>
    ensures { OnOk result (needs_of needs.new.items ≡ needs_of needs.old.items ++ filter (is_chosen own lock.now) all.now) }
{
    for (number, need) in all.iter().enumerate() {
        if is_chosen(own, lock, need) {
            needs.push(Numbered { need, number })?;
        }
    }
    Ok(())
}

/// What a lock of a list covers, itself first.
pub(crate) fn ordered(alloc: Global, listed: &Listed) -> Result<Vec<Numbered<'_>>, AllocError>
    ensures { IfOk result (λ v. needs_of v.items ≡ own_first listed.now.lock listed.now.needs) }
{
    let mut needs = Vec::new(alloc);
    let all = listed.needs.as_slice();
    add_needs(&mut needs, &listed.lock, all, true)?;
    add_needs(&mut needs, &listed.lock, all, false)?;
    Ok(needs)
}

/// Adds the chains of a need.
fn add_chains<'a>(found: &mut Vec<Under<'a>>, need: &'a Need) -> Result<(), AllocError>
    ensures { OnOk result (under_of found.new.items ≡ under_of found.old.items ++ chains_of need.now) }
{
    for chain in need.chains.as_slice() {
        found.push(Under { need, chain })?;
    }
    Ok(())
}

/// The chains under a lock of a list.
#[tactic(auto, using(crate::proofs::Chosen::flat_map_more))]
fn chains_under(alloc: Global, listed: &Listed) -> Result<Vec<Under<'_>>, AllocError>
    ensures { IfOk result (λ v. under_of v.items ≡ chains_under listed.now) }
{
    let mut found = Vec::new(alloc);
    let needs = ordered(alloc, listed)?;
    for one in &needs {
        add_chains(&mut found, one.need)?;
    }
    Ok(found)
}

/// Those of the chains that are told: every one, or the first.
fn shown_chains<'a, 'b>(found: &'b [Under<'a>], all: bool) -> &'b [Under<'a>]
    ensures { under_of result.now ≡ told_of all (under_of found.now) }
{
    if all || found.len() < 1 {
        found
    } else {
        &found[..1]
    }
}

/// Whether a base is a register.
fn is_register(base: Base) -> bool
    ensures { result ≡ is_register base }
{
    match base {
        Base::Reg(_) => true,
        Base::Global(_) => false,
    }
}

/// Whether a step is that of an argument, which is told with the instruction that sets the argument's register.
pub(crate) fn is_argument(step: &Step) -> bool
    ensures { result ≡ is_argument step.now }
{
    match (step.why, &step.lock) {
        (Why::Entered, Lock::Expr(expr, _)) => is_register(expr.base),
        _ => false,
    }
}

/// Whether a lock that is an expression became one on a class.
fn widens(lock: &Lock, other: &Lock) -> bool
    ensures { result ≡ widens lock.now other.now }
{
    match (lock, other) {
        (Lock::Expr(_, _), Lock::Class(_, _)) => true,
        _ => false,
    }
}

/// What a step behind another says.
fn verb_of(before: &Step, step: &Step) -> &'static str
    ensures { result.now ≡ verb_of before.now step.now }
{
    match (step.why, widens(&before.lock, &step.lock)) {
        (Why::Dereferenced, _) => "reads",
        (_, true) => "WIDENS",
        (_, false) => "so",
    }
}

/// The step before the one of a number.
fn step_before(steps: &[Step], number: usize) -> Option<&Step>
    ensures { option_copied result ≡ step_before steps.now number }
{
    match number.checked_sub(1) {
        Some(before) => steps.get(before),
        None => None,
    }
}

/// The note of a step that is `so` once more, since the way goes round a loop; else the one that it has.
fn note_or_round<'a>(note: &'a str, before: &Step, step: &Step) -> &'a str {
    let is_plain = note.is_empty() && step.why == Why::Linked;
    if is_plain && step.pc > before.pc && !widens(&before.lock, &step.lock) {
        "round the loop"
    } else {
        note
    }
}

impl Teller<'_> {
    /// Adds the chain that is told of a lock of a list, or all of them.
    pub(crate) fn push_chains(
        &self,
        text: &mut String,
        function: u16,
        listed: &Listed,
    ) -> Result<(), AllocError>
        ensures { OnOk result (Tells (told_chains (given self.now) function listed.now) (string_bytes text.old) (string_bytes text.new)) }
    {
        let found = chains_under(self.alloc, listed)?;
        let shown = shown_chains(&found, self.all);
        for (number, under) in shown.iter().enumerate() {
            self.push_under(text, function, &listed.lock, number, under)?;
        }
        Ok(())
    }

    /// Adds a chain under a lock, behind an empty line where it is not the first.
    fn push_under(
        &self,
        text: &mut String,
        function: u16,
        lock: &Lock,
        number: usize,
        under: &Under<'_>,
    ) -> Result<(), AllocError>
        ensures { OnOk result (Tells (under_lines (given self.now).all (given self.now).facts function lock.now number (under_now under.now)) (string_bytes text.old) (string_bytes text.new)) }
    {
        push_between(text, number)?;
        self.push_chain(text, under.chain)?;
        self.push_container(text, function, is_own(lock, under.need), lock)?;
        Ok(())
    }

    /// Adds that the lock of a list contains one that is needed, if that is another.
    fn push_container(
        &self,
        text: &mut String,
        function: u16,
        own: bool,
        lock: &Lock,
    ) -> Result<(), AllocError>
        ensures { OnOk result (string_bytes text.new ≡ string_bytes text.old ++ container_line (given self.now).facts function own lock.now) }
    {
        if own {
            return Ok(());
        }
        text.push_str(NO_PLACE)?;
        push_padded(text, "so", 8)?;
        self.push_lock_words(text, function, lock)?;
        text.push_str("   (the list's lock contains it)\n")?;
        Ok(())
    }

    /// Adds the statements whose chains are not told, where not every chain is.
    pub(crate) fn push_others(
        &self,
        text: &mut String,
        function: u16,
        listed: &Listed,
        others: &[Statements],
    ) -> Result<(), AllocError>
        ensures { OnOk result (Tells (others_told (given self.now).all) (string_bytes text.old) (string_bytes text.new)) }
    {
        if self.all {
            return Ok(());
        }
        text.push_str(self.others_lines(function, listed, others)?.as_str())?;
        Ok(())
    }

    /// The lines of the statements whose chains are not told: those of the chains that are kept, and for each need the others.
    fn others_lines(
        &self,
        function: u16,
        listed: &Listed,
        others: &[Statements],
    ) -> Result<String, AllocError> {
        let mut text = String::new(self.alloc);
        let mut is_first = true;
        let mut told = 0usize;
        let mut left = 0usize;
        for Numbered { need, number } in ordered(self.alloc, listed)? {
            let statements = statements_of(self.alloc, need, others.get(number), is_first)?;
            is_first = is_first && need.chains.len() == 0;
            if told == MAX_CONTAINED {
                left = left.saturating_add(1);
            } else if statements.count > 0 {
                told = told.saturating_add(1);
                self.push_other(&mut text, function, listed, need, &statements)?;
            }
        }
        push_left(&mut text, left)?;
        Ok(text)
    }

    /// Adds the statements that need a lock.
    pub(crate) fn push_other(
        &self,
        text: &mut String,
        function: u16,
        listed: &Listed,
        need: &Need,
        statements: &Statements,
    ) -> Result<(), AllocError> {
        if need.lock == listed.lock {
            text.push_str("      also for: ")?;
        } else {
            let words = self.words(function, &need.lock)?;
            write!(text, "      contains {words}, for: ")?;
        }
        self.push_statements(text, statements)?;
        text.push_str("\n")
    }

    /// Adds the lines of a chain: of a long one those of both ends, unless all is told.
    pub(crate) fn push_chain(&self, text: &mut String, chain: &Chain) -> Result<(), AllocError>
        ensures { OnOk result (Tells (chain_lines (given self.now).all (given self.now).facts chain.now.steps) (string_bytes text.old) (string_bytes text.new)) }
    {
        let steps = chain.steps.as_slice();
        if !self.all && steps.len() > MAX_STEPS {
            return self.push_ends(text, steps);
        }
        self.push_steps(text, steps, 0, steps)
    }

    /// Adds the lines of both ends of a chain, and between them how many steps are left.
    fn push_ends(&self, text: &mut String, steps: &[Step]) -> Result<(), AllocError>
        requires { 40 < length steps.now }
        ensures { OnOk result (Tells (ends_lines (given self.now).facts steps.now) (string_bytes text.old) (string_bytes text.new)) }
    {
        let last = steps.len() - AT_END;
        let front = &steps[..AT_END];
        let back = &steps[last..];
        self.push_steps(text, steps, 0, front)?;
        push_left_steps(text, last - AT_END)?;
        self.push_steps(text, steps, last, back)?;
        Ok(())
    }

    /// Adds the lines of some steps of a chain, of which the first has this number in it.
    fn push_steps(
        &self,
        text: &mut String,
        steps: &[Step],
        first: usize,
        some: &[Step],
    ) -> Result<(), AllocError>
        requires { first + length some.now ≤ length steps.now }
        ensures { OnOk result (Tells (lines_from (given self.now).facts steps.now first some.now) (string_bytes text.old) (string_bytes text.new)) }
    {
        for (behind, step) in some.iter().enumerate() {
            let number = first + behind;
            let parameter = steps.get(number.wrapping_sub(2));
            self.push_step(text, parameter, step_before(steps, number), step)?;
        }
        Ok(())
    }

    /// Adds the line of a step, behind another or as the first. `parameter` is the step two back, if there is one.
    fn push_step(
        &self,
        text: &mut String,
        parameter: Option<&Step>,
        before: Option<&Step>,
        step: &Step,
    ) -> Result<(), AllocError>
        ensures { OnOk result (Tells (line_of (given self.now).facts (option_copied before.entry) step.now) (string_bytes text.old) (string_bytes text.new)) }
    {
        let Some(before) = before else {
            self.push_first(text, step)?;
            return Ok(());
        };
        if is_argument(step) {
            return Ok(());
        }
        self.push_behind(text, parameter, before, step)?;
        Ok(())
    }

    /// Adds the line of the first step.
    fn push_first(&self, text: &mut String, step: &Step) -> Result<(), AllocError>
        ensures { OnOk result (string_bytes text.new ≡ string_bytes text.old ++ first_line (given self.now).facts step.now) }
    {
        let words = self.step_words(step)?;
        self.push_place(text, step.pc)?;
        push_padded(text, "needs", 8)?;
        text.push_str(words.as_str())?;
        text.push_str("\n")
    }

    /// The words of a step's lock.
    fn step_words(&self, step: &Step) -> Result<String, AllocError>
        ensures { IfOk result (λ text. string_bytes text ≡ step_words (given self.now).facts step.now) }
    {
        self.words(self.function_of(step.region), &step.lock)
    }

    /// Adds where a step stands: nothing where it is where the step before it is.
    fn push_place_of(&self, text: &mut String, step: &Step) -> Result<(), AllocError>
        ensures { OnOk result (string_bytes text.new ≡ string_bytes text.old ++ place_by step.now.why (given self.now).facts step.now.pc) }
    {
        match step.why {
            Why::Dereferenced => text.push_str(NO_PLACE),
            Why::Accessed | Why::Linked | Why::Entered => self.push_place(text, step.pc),
        }
    }

    /// Adds the line of a step after another, but for its note.
    fn push_line(&self, text: &mut String, before: &Step, step: &Step) -> Result<(), AllocError>
        ensures { OnOk result (string_bytes text.new ≡ string_bytes text.old ++ behind_line (given self.now).facts before.now step.now) }
    {
        let words = self.step_words(step)?;
        self.push_place_of(text, step)?;
        push_padded(text, verb_of(before, step), 8)?;
        text.push_str(words.as_str())
    }

    /// Adds the line of a step after another.
    fn push_behind(
        &self,
        text: &mut String,
        parameter: Option<&Step>,
        before: &Step,
        step: &Step,
    ) -> Result<(), AllocError>
        ensures { OnOk result (Tells (Words (behind_line (given self.now).facts before.now step.now) ∷ Note ∷ Words (codes "\n") ∷ []) (string_bytes text.old) (string_bytes text.new)) }
    {
        let note = self.note(parameter, before, step)?;
        self.push_line(text, before, step)?;
        push_note(text, note_or_round(note.as_str(), before, step))?;
        text.push_str("\n")?;
        Ok(())
    }

    /// Why a step follows from the one before it. `parameter` is the step two back. It matters only where the step before is an
    /// argument's: then it has the parameter's lock at the entry of the callee, by which the parameter is named.
    fn note(
        &self,
        parameter: Option<&Step>,
        before: &Step,
        step: &Step,
    ) -> Result<String, AllocError> {
        match parameter {
            Some(parameter) if is_argument(before) => {
                self.note_of_argument(parameter, before, step)
            }
            _ => note_of(self, before, step),
        }
    }
}
