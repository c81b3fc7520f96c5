//! Sets of literals that are cleared at once.
ghost use Rattle.std.specs.Prelude.{◌≡◌, ◌+◌, ◌*◌, ◌≤◌, ◌<◌, Bool, false, IfOk, All, length};
ghost use Rattle.clause_core.specs.Literal.{Literal, number};
ghost use Rattle.lrat_replay.specs.Status.{Known, with_literal, without_literal, nothing};

use clause_core::lit::Lit;
use std::alloc::Global;
use wire_io::fault::NoMemory;

/// A set of literals: those whose stamp is the present one. A stamp has two bytes, so that sets stay near the processor and all
/// stamps are made anew only once in 65,535 times.
#[derive(Drop)]
pub struct Marks {
    stamps: Vec<u16>,
    present: u16,
    ghost begun: { 0 < present },
    ghost past: { All (λ stamp. stamp ≤ present) stamps.items },
}

impl Marks {
    ghost use Rattle.lrat_replay.specs.Marks.{known_of, room};

    pub fn new(alloc: Global, count: usize) -> Result<Marks, NoMemory>
        ensures empty { IfOk result (λ marks. known_of marks ≡ nothing) }
        ensures room { IfOk result (λ marks. room marks ≡ count) }
    {
        Ok(Marks {
            stamps: vec![in alloc; 0; count]?,
            present: 1,
        })
    }

    pub fn has(&self, lit: Lit) -> bool
        requires { number lit < room self.now }
        ensures { result ≡ known_of self.now lit }
    {
        self.stamps[lit.code() as usize] == self.present
    }

    pub fn add(&mut self, lit: Lit)
        requires { number lit < room self.old }
        ensures added { known_of self.new ≡ with_literal (known_of self.old) lit }
        ensures room { room self.new ≡ room self.old }
    {
        self.stamps[lit.code() as usize] = self.present;
    }

    pub fn remove(&mut self, lit: Lit)
        requires { number lit < room self.old }
        ensures removed { known_of self.new ≡ without_literal (known_of self.old) lit }
        ensures room { room self.new ≡ room self.old }
    {
        self.stamps[lit.code() as usize] = 0;
    }

    pub fn clear(&mut self)
        ensures empty { known_of self.new ≡ nothing }
        ensures room { room self.new ≡ room self.old }
    {
        if self.present == u16::MAX {
            self.stamps.fill(0);
            self.present = 1;
        } else {
            self.present += 1;
        }
    }
}
