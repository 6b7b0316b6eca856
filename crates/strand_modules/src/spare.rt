ghost use Rattle.std.specs.Prelude.{◌≡◌, IfErr, IfOk, IsTrue, ◌↔◌, OnOk, cond, nat_eq};
ghost use Rattle.strand_modules.specs.Bank.{CopiesOn, HasSpare};
ghost use Rattle.strand_modules.specs.Here.{bank_here};
ghost use Rattle.strand_modules.specs.Spare.{AddsSpare, BeginFails, Begins, KeepsNoSpare, Takes};

use crate::migration::{Migration, missed_after, next_count};
use crate::objects::object_size;
use crate::parts::part_words;
use crate::transfer::{change_places, move_from};
use crate::{BeginFault, ModuleBank, SpareFault, SpareRefused};
use strand_base::PmModule;

impl ModuleBank {
    /// Whether there is a spare object.
    pub fn has_spare(&self) -> bool
        ensures { IsTrue result ↔ HasSpare (bank_here holds self.now) }
    {
        self.spare.is_some()
    }

    /// The module that is migrating, if one is.
    pub fn migrating(&self) -> Option<u32>
        ensures { result ≡ (bank_here holds self.now).migration.running }
    {
        match &self.spare {
            Some(_) if self.migration.running => Some(self.migration.module),
            _ => None,
        }
    }

    // Whether this module is migrating.
    pub(crate) fn is_migrating(&self, k: u32) -> bool
        ensures { IsTrue result ↔ ((bank_here holds self.now).migration.running ≡ Some k) }
    {
        match self.migrating() {
            Some(module) => module == k,
            None => false,
        }
    }

    /// How many words were copied of the module that is migrating, or of the last one that did.
    pub fn copied(&self) -> u64
        ensures { result ≡ (bank_here holds self.now).migration.copied }
    {
        self.migration.copied
    }

    /// How many stores of that migration ended their copying early.
    pub fn missed(&self) -> u64
        ensures { result ≡ (bank_here holds self.now).migration.missed }
    {
        self.migration.missed
    }

    /// Takes the object as the spare one, to which a module may migrate. It takes no memory.
    ///
    /// `Occupied` exactly where there is a spare, else `Size` exactly where the object is of another size
    /// than the modules. The object is then handed back, and the bank is as before.
    pub fn add_spare(&mut self, object: Box<dyn PmModule>) -> Result<(), SpareRefused>
        ensures ok { OnOk result (AddsSpare (bank_here holds self.old) (bank_here holds self.new) (holds object)) }
        ensures err { IfErr result (λ e. KeepsNoSpare (bank_here holds self.old) (bank_here holds self.new)
            (holds object) (holds e.«module») e.why) }
    {
        let module = object;
        if self.spare.is_some() {
            let why = SpareFault::Occupied;
            return Err(SpareRefused { why, module });
        }
        let need = object_size(&self.modules, &self.spare);
        let have = part_words(&module);
        if need != have {
            let why = SpareFault::Size { need, have };
            return Err(SpareRefused { why, module });
        }
        self.migration.running = false;
        self.spare = Some(module);
        Ok(())
    }

    /// Hands the spare object out. `None` exactly where there is none or a module is migrating to it. It
    /// takes no memory.
    pub fn take_spare(&mut self) -> Option<Box<dyn PmModule>>
        ensures { Takes holds (bank_here holds self.old) (bank_here holds self.new) result }
    {
        if self.migration.running {
            return None;
        }
        self.spare.take()
    }

    /// Begins the migration of module `k` to the spare: from now on each accepted store copies the next
    /// eight of its words, or all that are left, and once all are copied the spare takes the place of the
    /// module's object, which becomes the spare. A module of no words has migrated at once. It takes no
    /// memory.
    ///
    /// `NoSpare` exactly where there is no spare, else `BadIndex` exactly where there is no module `k`,
    /// else `Migrating` exactly where a module is migrating. The bank is then as before.
    pub fn begin(&mut self, k: u32) -> Result<(), BeginFault>
        ensures ok { OnOk result (Begins (bank_here holds self.old) (bank_here holds self.new) k) }
        ensures err { IfErr result (λ e. ((bank_here holds self.new) ≡ (bank_here holds self.old))
            × BeginFails (bank_here holds self.old) k e) }
    {
        let size = object_size(&self.modules, &self.spare);
        let Some(spare) = &mut self.spare else {
            return Err(BeginFault::NoSpare);
        };
        let index = k as usize;
        if index >= self.modules.len() {
            return Err(BeginFault::BadIndex);
        }
        if self.migration.running {
            let module = self.migration.module;
            return Err(BeginFault::Migrating { module });
        }
        let (copied, missed) = (0, 0);
        if size == 0 {
            change_places(&mut self.modules, index, spare);
            self.migration = Migration {
                module: k,
                running: false,
                copied,
                missed,
            };
            return Ok(());
        }
        self.migration = Migration {
            module: k,
            running: true,
            copied,
            missed,
        };
        Ok(())
    }

    // Copies the next words of the module that is migrating, if one is.
    pub(crate) fn copy_on(&mut self)
        ensures { CopiesOn (bank_here holds self.old) (bank_here holds self.new) }
    {
        let size = object_size(&self.modules, &self.spare);
        let Some(spare) = &mut self.spare else {
            return;
        };
        if !self.migration.running {
            return;
        }
        let migration = self.migration;
        let index = migration.module as usize;
        let count = next_count(migration, size);
        match move_from(&mut self.modules, index, spare, migration.copied, count) {
            Ok(()) => {
                let copied = migration.copied + count;
                if size <= copied {
                    change_places(&mut self.modules, index, spare);
                    self.migration = Migration {
                        running: false,
                        copied,
                        ..migration
                    };
                } else {
                    self.migration = Migration {
                        copied,
                        ..migration
                    };
                }
            }
            Err(missed) => {
                self.migration = missed_after(migration, missed.copied);
            }
        }
    }
}
