//! Why the members of a class share it, where some list has a lock on the class.
ghost use Rattle.std.specs.Prelude.{◌≡◌, ◌++◌, IfOk, OnOk, string_bytes};
ghost use Rattle.std.specs.List.{list_any};
ghost use Rattle.asl_explain.specs.ClassReasons.{is_on, told_at, again_line, block_of, class_block, lock_block, IsToldIn, IsToldIf};
ghost use Rattle.asl_explain.specs.Telling.{is_listed, first_list, AreToldBy};

use asl_class_text::{Reasoned, ToldClass};
use asl_code::{Items, Lock};
use std::alloc::{AllocError, Global};
use std::fmt::Write;

/// So many instructions are tried in all classes of an explanation together; `explain --classes` tries 16 for each class
/// (`asl_class_text`, `parting.rt`).
const MOST_TRIED: u32 = 64;

/// A class on which some list has a lock, and why its members share it.
#[derive(Drop)]
pub struct ClassTold {
    /// The first section whose list has a lock on the class.
    pub section: usize,
    /// What is told of the class.
    pub told: ToldClass,
}

/// What the reasons of classes are written from.
#[derive(Clone, Copy)]
pub struct ClassTeller<'a> {
    /// The source with its reasons.
    pub reasoned: &'a Reasoned<'a>,
    /// What is told of each class.
    pub told: &'a [Option<ClassTold>],
    /// Whether it is told of all members.
    pub all: bool,
}

/// Whether a lock is on the class.
fn is_on(class: u16, lock: &Lock) -> bool
    ensures { result ≡ is_on class lock.now }
{
    match lock {
        Lock::Class(own, _) => *own == class,
        Lock::Expr(_, _) => false,
        Lock::Root(_) => false,
    }
}

/// Whether a list has a lock on the class.
fn has_class(class: u16, list: &[Lock]) -> bool
    ensures { result ≡ is_listed class list.now }
{
    for lock in list {
        if is_on(class, lock) {
            return true;
        }
    }
    false
}

/// The first section whose list has a lock on the class.
fn first_section(lists: &[Items<Lock>], class: u16) -> Option<usize>
    ensures { result ≡ first_list class 0 lists.now }
{
    for (number, list) in lists.iter().enumerate() {
        if has_class(class, list.as_slice()) {
            return Some(number);
        }
    }
    None
}

/// What is told of a class, of which this is the first section whose list has a lock on it.
fn told_in(
    alloc: Global,
    reasoned: &Reasoned<'_>,
    trials: &mut u32,
    all: bool,
    class: u16,
    section: usize,
) -> Result<ClassTold, AllocError>
    ensures { IfOk result (IsToldIn reasoned.now all class section) }
{
    let told = reasoned.class(alloc, trials, all, class)?;
    Ok(ClassTold { section, told })
}

/// What is told of a class, if there is a first section whose list has a lock on it.
fn told_if(
    alloc: Global,
    reasoned: &Reasoned<'_>,
    trials: &mut u32,
    all: bool,
    class: u16,
    first: Option<usize>,
) -> Result<Option<ClassTold>, AllocError>
    ensures { IfOk result (IsToldIf reasoned.now all class first) }
{
    match first {
        Some(section) => {
            let told = told_in(alloc, reasoned, trials, all, class, section)?;
            Ok(Some(told))
        }
        None => Ok(None),
    }
}

/// What is told of the first classes, so many of them, where sections have these lists.
pub fn told_classes(
    alloc: Global,
    reasoned: &Reasoned<'_>,
    all: bool,
    lists: &[Items<Lock>],
    count: u16,
) -> Result<Vec<Option<ClassTold>>, AllocError>
    ensures { IfOk result (λ v. AreToldBy reasoned.now all lists.now count v.items) }
{
    let mut trials = MOST_TRIED;
    let mut told = Vec::new(alloc);
    for class in 0..count {
        let first = first_section(lists, class);
        let one = told_if(alloc, reasoned, &mut trials, all, class, first)?;
        told.push(one)?;
    }
    Ok(told)
}

/// Adds in which section it is told why a class is one, if it has more members than one.
fn push_again(text: &mut String, told: &ClassTold) -> Result<(), AllocError>
    ensures { OnOk result (string_bytes text.new ≡ string_bytes text.old ++ again_line told.now) }
{
    if told.told.members.len() > 1 {
        let section = told.section;
        write!(text, "    why one class: see section {section}\n")
    } else {
        Ok(())
    }
}

/// Adds why the members of a class share it, below a lock on it in the list of a section.
fn push_told(
    alloc: Global,
    text: &mut String,
    classes: &ClassTeller<'_>,
    section: usize,
    told: &ClassTold,
) -> Result<(), AllocError>
    ensures { OnOk result (string_bytes text.new ≡ string_bytes text.old ++ block_of classes.now.reasoned.now.known.facts classes.now.all section told.now) }
{
    if told.section == section {
        classes
            .reasoned
            .push_reasons(text, alloc, classes.all, &told.told)
    } else {
        push_again(text, told)
    }
}

/// Adds why the members of a class share it, if it is told of the class.
fn push_class(
    alloc: Global,
    text: &mut String,
    classes: &ClassTeller<'_>,
    section: usize,
    class: u16,
) -> Result<(), AllocError>
    ensures { OnOk result (string_bytes text.new ≡ string_bytes text.old ++ class_block classes.now.reasoned.now.known.facts classes.now.all classes.now.told.now section class) }
{
    match classes.told.get(usize::from(class)) {
        Some(Some(told)) => push_told(alloc, text, classes, section, told),
        _ => Ok(()),
    }
}

/// Adds why the members of a lock's class share it, if it is on a class.
pub fn push_lock_block(
    alloc: Global,
    text: &mut String,
    classes: &ClassTeller<'_>,
    section: usize,
    lock: &Lock,
) -> Result<(), AllocError>
    ensures { OnOk result (string_bytes text.new ≡ string_bytes text.old ++ lock_block classes.now.reasoned.now.known.facts classes.now.all classes.now.told.now section lock.now) }
{
    match lock {
        Lock::Class(class, _) => push_class(alloc, text, classes, section, *class),
        Lock::Expr(_, _) => Ok(()),
        Lock::Root(_) => Ok(()),
    }
}
