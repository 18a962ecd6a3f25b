//! A list of different names.

ghost use Rattle.std.specs.Prelude.{◌≡◌, ◌<◌, ◌++◌, [], ◌∷◌, true, false, Some, not, length, slice_get, if◌then◌else◌, ◌↔◌, IsSome, IfSome, IsTrue, IfOk, OnOk, OnErr};
ghost use Rattle.tn_names.specs.Names.{IsNameList, has_name, is_name, number_of, most_names};

use indexmap::IndexSet;
use std::alloc::Global;
use std::marker::Model;
use tn_base::OutOfMemory;

/// Different names, in the order in which they came.
#[derive(Drop)]
pub struct NameList {
    alloc: Global,
    names: IndexSet<String>,
}

impl Model for NameList {
    ghost use Rattle.std.specs.Prelude.{List, ℕ, map, string_bytes};
    ghost use Rattle.tn_names.specs.Names.{IsNameList};

    ghost Value = { List (List ℕ) };

    ghost view = { λ list. map string_bytes list.names.keys };

    ghost invariant = { λ list. IsNameList (map string_bytes list.names.keys) };
}

impl NameList {
    pub fn new(alloc: Global) -> NameList
        ensures { result ≡ [] }
    {
        NameList {
            alloc,
            names: IndexSet::new(alloc),
        }
    }

    pub fn len(&self) -> u32
        ensures len { result ≡ length self.now }
        ensures kept { IsNameList self.now }
    {
        self.names.len() as u32
    }

    pub fn name(&self, number: u32) -> &str
        requires { number < length self.now }
        ensures { slice_get self.now number ≡ Some result.now }
    {
        self.names.as_slice()[number as usize].as_str()
    }

    pub fn number_of(&self, name: &str) -> Option<u32>
        ensures number { result ≡ number_of self.now name.now }
        ensures there { IsSome result ↔ IsTrue (has_name self.now name.now) }
        ensures found { IfSome result (λ number. slice_get self.now number ≡ Some name.now) }
    {
        let number = self.names.get_index_of(name)?;
        Some(number as u32)
    }

    pub fn add(&mut self, name: &str) -> Result<bool, OutOfMemory>
        requires named { IsTrue (is_name name.now) }
        requires room { length self.old < most_names }
        ensures added { IfOk result (λ added. added ≡ not (has_name self.old name.now)) }
        ensures last { IfOk result
            (λ added. self.new ≡ (if added then self.old ++ name.now ∷ [] else self.old)) }
        ensures known { has_name self.old name.now ≡ true → result ≡ Ok false }
        ensures err { OnErr result (self.new ≡ self.old) }
    {
        if self.has(name) {
            return Ok(false);
        }
        self.push(name)?;
        Ok(true)
    }

    fn has(&self, name: &str) -> bool
        ensures { result ≡ has_name self.now name.now }
    {
        self.names.contains(name)
    }

    fn push(&mut self, name: &str) -> Result<(), OutOfMemory>
        requires named { IsTrue (is_name name.now) }
        requires room { length self.old < most_names }
        requires new { has_name self.old name.now ≡ false }
        ensures last { OnOk result (self.new ≡ self.old ++ name.now ∷ []) }
        ensures err { OnErr result (self.new ≡ self.old) }
    {
        let owned = String::from_str(self.alloc, name)?;
        self.names.insert(owned)?;
        Ok(())
    }
}
