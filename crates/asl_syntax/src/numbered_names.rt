//! Names with numbers.

ghost use Rattle.std.specs.Prelude.{◌≡◌, ℕ, List, None, IfOk, OnErr, true, false, is_some};
ghost use Rattle.asl_syntax.specs.Rules.{no_count, with_count, no_name, with_name};
ghost use Rattle.asl_syntax.specs.NumberedNamesView.{number_among, number_in_tree, counts_in, names_known};

use crate::ident::Ident;
use arrayvec::ArrayVec;
use std::alloc::{AllocError, Global};
use std::collections::BTreeMap;

/// How many names are compared one by one, before a map takes the others.
const FEW: usize = 8;

/// The number beside a name among these.
fn number_among(names: &[(&[u8], usize)], name: &[u8]) -> Option<usize>
    ensures { result ≡ number_among names.now name.now }
{
    for (bytes, number) in names {
        if *bytes == name {
            return Some(*number);
        }
    }
    None
}

/// Sets the number beside a name among these, and says whether the name is there.
fn renumber(names: &mut [(&[u8], usize)], name: &[u8], number: usize) -> bool
    ensures there { result ≡ is_some (number_among names.old name.now) }
    ensures same { result ≡ false → names.new ≡ names.old }
    ensures set { result ≡ true → (q : List ℕ) → number_among names.new q ≡ with_count name.now number (number_among names.old) q }
{
    for i in 0..names.len() {
        let (bytes, _) = names[i];
        if bytes == name {
            names[i] = (bytes, number);
            return true;
        }
    }
    false
}

/// Names, each with a number. The first few of them stand in a row: most functions have no more locals, and to compare a
/// name with each takes less than to search a map.
#[derive(Drop)]
pub struct NumberedNames<'t> {
    few: ArrayVec<(&'t [u8], usize), FEW>,
    names: BTreeMap<&'t [u8], usize>,
}

impl<'t> NumberedNames<'t> {
    /// No name.
    pub fn new(alloc: Global) -> NumberedNames<'t>
        ensures counts { counts_in result ≡ no_count }
        ensures names { names_known result ≡ no_name }
    {
        NumberedNames {
            few: ArrayVec::new(),
            names: BTreeMap::new(alloc),
        }
    }

    /// Adds a name with its number, in place of an older one.
    ///
    /// # Errors
    ///
    /// An allocation failed, which only a name that is not there yet may want. Then all is as it was.
    pub fn add(&mut self, name: &Ident<'t>, number: usize) -> Result<(), AllocError>
        ensures counts { IfOk result (λ _. counts_in self.new ≡ with_count name.now number (counts_in self.old)) }
        ensures names { IfOk result (λ _. names_known self.new ≡ with_name name.now (names_known self.old)) }
        ensures memory { OnErr result (names_known self.old name.now ≡ false) }
        ensures err { OnErr result (counts_in self.new ≡ counts_in self.old) }
    {
        if renumber(self.few.as_mut_slice(), name.as_slice(), number) {
            return Ok(());
        }
        if self.few.is_full() {
            self.add_to_tree(name.as_slice(), number)?;
        } else {
            self.few.push((name.as_slice(), number));
        }
        Ok(())
    }

    /// Adds a name with its number to the map. Where memory is refused, all is as it was.
    fn add_to_tree(&mut self, name: &'t [u8], number: usize) -> Result<(), AllocError>
        ensures row { self.new.few ≡ self.old.few }
        ensures map { IfOk result (λ _. (q : List ℕ) → number_in_tree self.new q ≡ with_count name.now number (number_in_tree self.old) q) }
        ensures memory { OnErr result (number_in_tree self.old name.now ≡ None) }
        ensures err { OnErr result (self.new.names.entries ≡ self.old.names.entries) }
    {
        self.names.insert(name, number)?;
        Ok(())
    }

    /// The number beside a name.
    pub fn find(&self, name: &Ident<'_>) -> Option<usize>
        ensures { result ≡ counts_in self.now name.now }
    {
        match number_among(self.few.as_slice(), name.as_slice()) {
            Some(number) => Some(number),
            None => self.names.get(name.as_slice()).copied(),
        }
    }

    /// Whether a name is there.
    pub fn has(&self, name: &Ident<'_>) -> bool
        ensures { result ≡ names_known self.now name.now }
    {
        self.find(name).is_some()
    }
}
