ghost use Rattle.std.specs.Prelude.{◌≡◌, true, IfOk};

use mb_base::Memory;
use mb_rows::Code;
use std::alloc::Global;
use std::marker::Model;
use std::sync::Arc;

/// A code that blocks and files share. A contract sees the code.
#[derive(Drop)]
pub(crate) struct SharedCode {
    code: Arc<Code>,
    /// Whether the code is known to be usable. That takes an elimination, so what one block has shown is told to later ones.
    usable: bool,
}

impl Model for SharedCode {
    ghost use Rattle.std.specs.Prelude.{◌≡◌, true};
    ghost use Rattle.std.specs.Arc.{arc_value};
    ghost use Rattle.mb_rows.specs.Code.{RaptorCode};
    ghost use Rattle.mb_decoder.specs.Block.{SourcesDetermine};

    ghost Value = { RaptorCode };

    ghost view = { λ s. arc_value s.code };

    ghost invariant = { λ s. s.usable ≡ true → SourcesDetermine (arc_value s.code) };
}

impl SharedCode {
    ghost use Rattle.mb_decoder.specs.Block.{SourcesDetermine};

    /// The code, to be shared, which is not known to be usable. `Memory` where there is no room for it.
    pub(crate) fn new(alloc: Global, code: Code) -> Result<SharedCode, Memory>
        ensures { IfOk result (λ shared. shared ≡ code) }
    {
        Ok(SharedCode {
            code: Arc::new(alloc, code)?,
            usable: false,
        })
    }

    /// The same code once more, and what is known of it. `Memory` where it has as many owners as can be counted.
    pub(crate) fn share(&self) -> Result<SharedCode, Memory>
        ensures { IfOk result (λ shared. shared ≡ self.now) }
    {
        Ok(SharedCode {
            code: Arc::try_clone(&self.code)?,
            usable: self.usable,
        })
    }

    /// The code.
    pub(crate) fn code(&self) -> &Code
        ensures { result.now ≡ self.now }
    {
        &self.code
    }

    /// Whether it is known to be usable.
    pub(crate) fn is_usable(&self) -> bool
        ensures { result ≡ true → SourcesDetermine self.now }
    {
        self.usable
    }

    /// Notes that it is usable.
    pub(crate) fn learn(&mut self)
        requires { SourcesDetermine self.old }
        ensures { self.new ≡ self.old }
    {
        self.usable = true;
    }

    /// Notes that it is usable where the other code is the same and known to be usable.
    pub(crate) fn learn_from(&mut self, other: &SharedCode)
        ensures { self.new ≡ self.old }
    {
        if !self.usable && other.is_usable() && self.code.is(other.code()) {
            self.learn();
        }
    }

    /// Whether it has another owner.
    pub(crate) fn has_others(&self) -> bool {
        Arc::strong_count(&self.code) > 1
    }
}
