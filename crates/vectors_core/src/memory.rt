// The six lists that are lent to every call of the preprocessor.
ghost use Rattle.std.specs.Prelude.{◌≡◌, ◌↔◌, length, replicate, IsOk};
ghost use Rattle.vectors_core.specs.Old.{zero32, zero64, old32, old64, old_whole, IsUntouched32, IsUntouched64, IsUntouchedWhole};

use crate::field::Lent;
use crate::fields::{Differs, expect_untouched};

/// Arrays, and no Vecs: no memory is asked for them, of which there may be too little.
#[derive(Drop)]
pub struct Memory<const N: usize> {
    pub statistics: [f64; 260],
    pub inputs: [f32; 1030],
    pub point: [f32; 1100],
    pub times: [u64; 70],
    pub initial_values: [f32; N],
    pub initial_timestamps: [u64; 2000],
}

impl<const N: usize> Memory<N> {
    /// Room for a state, with `N` initial values.
    pub fn new() -> Memory<N>
        ensures statistics { result.statistics ≡ replicate 260 zero64 }
        ensures inputs { result.inputs ≡ replicate 1030 zero32 }
        ensures point { result.point ≡ replicate 1100 zero32 }
        ensures times { result.times ≡ replicate 70 0 }
        ensures initial_values { result.initial_values ≡ replicate N zero32 }
        ensures initial_timestamps { result.initial_timestamps ≡ replicate 2000 0 }
    {
        Memory {
            statistics: [0.0; 260],
            inputs: [0.0; 1030],
            point: [0.0; 1100],
            times: [0; 70],
            initial_values: [0.0; N],
            initial_timestamps: [0; 2000],
        }
    }

    /// Memory as it is to be before a call that may change all but the initial values.
    pub fn forget_learnt(&mut self)
        ensures statistics { self.new.statistics ≡ replicate (length self.old.statistics) old64 }
        ensures inputs { self.new.inputs ≡ replicate (length self.old.inputs) old32 }
        ensures point { self.new.point ≡ replicate (length self.old.point) old32 }
        ensures times { self.new.times ≡ replicate (length self.old.times) old_whole }
        ensures initial_values { self.new.initial_values ≡ self.old.initial_values }
        ensures initial_timestamps { self.new.initial_timestamps ≡ self.old.initial_timestamps }
    {
        self.statistics.fill(f64::OLD);
        self.inputs.fill(f32::OLD);
        self.point.fill(f32::OLD);
        self.times.fill(u64::OLD);
    }

    pub fn forget(&mut self)
        ensures statistics { self.new.statistics ≡ replicate (length self.old.statistics) old64 }
        ensures inputs { self.new.inputs ≡ replicate (length self.old.inputs) old32 }
        ensures point { self.new.point ≡ replicate (length self.old.point) old32 }
        ensures times { self.new.times ≡ replicate (length self.old.times) old_whole }
        ensures initial_values { self.new.initial_values ≡ replicate (length self.old.initial_values) old32 }
        ensures initial_timestamps { self.new.initial_timestamps ≡ replicate (length self.old.initial_timestamps) old_whole }
    {
        self.forget_learnt();
        self.initial_values.fill(f32::OLD);
        self.initial_timestamps.fill(u64::OLD);
    }

    pub fn expect_learnt_untouched(&self) -> Result<(), Differs>
        ensures { IsOk result ↔ (IsUntouched64 self.now.statistics × IsUntouched32 self.now.inputs × IsUntouched32 self.now.point × IsUntouchedWhole self.now.times) }
    {
        expect_untouched(&self.statistics)?;
        expect_untouched(&self.inputs)?;
        expect_untouched(&self.point)?;
        expect_untouched(&self.times)
    }

    pub fn expect_untouched(&self) -> Result<(), Differs>
        ensures { IsOk result ↔ (IsUntouched64 self.now.statistics × IsUntouched32 self.now.inputs × IsUntouched32 self.now.point ×
            IsUntouchedWhole self.now.times × IsUntouched32 self.now.initial_values × IsUntouchedWhole self.now.initial_timestamps) }
    {
        self.expect_learnt_untouched()?;
        expect_untouched(&self.initial_values)?;
        expect_untouched(&self.initial_timestamps)
    }
}
