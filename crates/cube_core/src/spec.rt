//! Functions that may be left free at some assignments.
ghost use Rattle.std.specs.Prelude.{◌≡◌, ℕ, ◌<◌, ◌≤◌};

use crate::table::Table;
use std::marker::Model;

/// A function of 1 to 10 inputs, by the assignments at which it is 1 and those at which it is 0.
#[derive(Drop)]
pub struct Spec {
    inputs: u8,
    on: Table,
    off: Table,
}

impl Model for Spec {
    ghost use Rattle.cube_core.specs.Function.{Function, function_code, IsFunction};

    ghost Value = { Function };

    ghost coded = { function_code };

    ghost view = { λ spec. record { inputs = spec.inputs; on = spec.on; off = spec.off } };

    ghost invariant = { λ spec. IsFunction (record { inputs = spec.inputs; on = spec.on; off = spec.off }) };
}

impl Spec {
    ghost use Rattle.std.specs.Option.{SomeIff};
    ghost use Rattle.cube_core.specs.Function.{Function, IsFunction};

    /// None exactly where the inputs are not from 1 to 10, a set has an assignment of more inputs, or both have one.
    pub fn new(inputs: u8, on: Table, off: Table) -> Option<Spec>
        ensures { let f : Function = record { inputs = inputs; on = on; off = off } in SomeIff result (IsFunction f) f }
    {
        if inputs < 1 || inputs > 10 {
            return None;
        }
        if !on.is_below(inputs) || !off.is_below(inputs) || !on.is_apart_from(&off) {
            return None;
        }
        Some(Spec { inputs, on, off })
    }

    /// How many inputs the function has, from 1 to 10.
    pub fn inputs(&self) -> u8
        ensures same { result ≡ self.now.inputs }
        ensures kept { IsFunction self.now }
    {
        self.inputs
    }

    /// The assignments at which the function is 1.
    pub fn on(&self) -> &Table
        ensures { result.now ≡ self.now.on }
    {
        &self.on
    }

    /// The assignments at which the function is 0.
    pub fn off(&self) -> &Table
        ensures { result.now ≡ self.now.off }
    {
        &self.off
    }

    /// The same function once more.
    pub fn copy(&self) -> Spec
        ensures { result ≡ self.now }
    {
        Spec {
            inputs: self.inputs,
            on: self.on.copy(),
            off: self.off.copy(),
        }
    }
}
