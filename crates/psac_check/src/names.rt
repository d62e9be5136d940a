// The names in scope.
ghost use Rattle.std.specs.Prelude.{◌≡◌, ◌≤◌, ◌||◌, ◌++◌, List, [], ◌∷◌, length, map, filter, drop, take, Ok, IfOk, OnOk};
ghost use Rattle.psac_model.specs.Series.{has, dest_names, new_wrong, name_wrong, dest_wrong, with_value, with_dest, params, all_written};
ghost use Rattle.psac_check.specs.Faults.{told};
ghost use Rattle.psac_check.specs.Follows.{Gives};
ghost use Rattle.psac_check.specs.Scopes.{dests_of};

use crate::fault::{Breach, CheckFault};
use psac_syntax::{Func, ReadItem};
use std::alloc::{AllocError, Global};
use std::marker::Model;

/// A destination, with the line of what brought it in.
#[derive(Clone, Copy)]
pub struct Dest {
    name: u16,
    line: u32,
}

/// The names in scope, in the order in which they came.
#[derive(Drop)]
pub struct Scope {
    values: Vec<u16>,
    dests: Vec<Dest>,
}

impl Model for Scope {
    ghost use Rattle.std.specs.Prelude.{map};
    ghost use Rattle.psac_model.specs.Series as rule;

    ghost Value = { rule.Scope };

    ghost view = { λ s. record { values = s.values.items; dests = map (λ d. (d.name, d.line)) s.dests.items } };
}

/// How many names of each sort are in scope.
#[derive(Clone, Copy)]
pub struct Mark {
    pub values: usize,
    pub dests: usize,
}

fn is_among(dests: &[Dest], name: u16) -> bool
    ensures { result ≡ has name (map (λ d. d.0) (dests_of dests.now)) }
{
    for dest in dests {
        if dest.name == name {
            return true;
        }
    }
    false
}

fn are_written(dests: &[Dest], written: &[u16]) -> Result<(), CheckFault>
    ensures { Gives (λ done. done) result (all_written (dests_of dests.now) written.now (Ok tt)) }
{
    for dest in dests {
        if !written.contains(&dest.name) {
            return Err(Breach::NotWritten.at(dest.line));
        }
    }
    Ok(())
}

fn params_to_write(alloc: Global, func: &Func) -> Result<Vec<Dest>, AllocError>
    ensures { IfOk result (λ dests. dests_of dests.items ≡ map (λ d. (d, func.now.line)) func.now.dests) }
{
    let mut dests = Vec::new(alloc);
    for name in func.dests.as_slice() {
        dests.push(Dest {
            name: *name,
            line: func.line,
        })?;
    }
    Ok(dests)
}

impl Scope {
    /// A function's parameters.
    pub fn of_params(alloc: Global, func: &Func) -> Result<Scope, AllocError>
        ensures { IfOk result (λ s. s ≡ params func.now) }
    {
        Ok(Scope {
            values: Vec::from_slice(alloc, func.values.as_slice())?,
            dests: params_to_write(alloc, func)?,
        })
    }

    fn has_value(&self, name: u16) -> bool
        ensures { result ≡ has name self.now.values }
    {
        self.values.as_slice().contains(&name)
    }

    pub fn has_dest(&self, name: u16) -> bool
        ensures { result ≡ has name (dest_names self.now) }
    {
        is_among(&self.dests, name)
    }

    /// A name that is bound must be new.
    pub fn new_name(&self, name: u16) -> Result<(), Breach>
        ensures { told result ≡ new_wrong self.now name }
    {
        if self.has_value(name) || self.has_dest(name) {
            return Err(Breach::Rebound);
        }
        Ok(())
    }

    /// A name that is used must be a value, or a destination that is written.
    pub fn known_name(&self, written: &[u16], name: u16) -> Result<(), Breach>
        ensures { told result ≡ name_wrong self.now written.now name }
    {
        if self.has_value(name) || written.contains(&name) {
            return Ok(());
        }
        if self.has_dest(name) {
            return Err(Breach::WrongSort);
        }
        Err(Breach::UnknownName)
    }

    /// What is written must be a destination, and not be written yet.
    pub fn unwritten_dest(&self, written: &[u16], name: u16) -> Result<(), Breach>
        ensures { told result ≡ dest_wrong self.now written.now name }
    {
        if written.contains(&name) {
            return Err(Breach::WrittenTwice);
        }
        if self.has_dest(name) {
            return Ok(());
        }
        if self.has_value(name) {
            return Err(Breach::WrongSort);
        }
        Err(Breach::UnknownName)
    }

    pub fn add_value(&mut self, name: u16) -> Result<(), AllocError>
        ensures { OnOk result (self.new ≡ with_value name self.old) }
    {
        self.values.push(name)?;
        Ok(())
    }

    pub fn add_dest(&mut self, name: u16, line: u32) -> Result<(), AllocError>
        ensures { OnOk result (self.new ≡ with_dest name line self.old) }
    {
        self.dests.push(Dest { name, line })?;
        Ok(())
    }

    pub fn mark(&self) -> Mark
        ensures values { result.values ≡ length self.now.values }
        ensures dests { result.dests ≡ length self.now.dests }
    {
        Mark {
            values: self.values.len(),
            dests: self.dests.len(),
        }
    }

    /// Lets go of the names that came since the mark.
    pub fn leave(&mut self, mark: Mark)
        ensures { self.new ≡ record { values = take mark.values self.old.values; dests = take mark.dests self.old.dests } }
    {
        self.values.truncate(mark.values);
        self.dests.truncate(mark.dests);
    }

    /// Each destination that came since the mark must be written.
    pub fn all_written(&self, since: usize, written: &[u16]) -> Result<(), CheckFault>
        requires { since ≤ length self.now.dests }
        ensures { Gives (λ done. done) result (all_written (drop since self.now.dests) written.now (Ok tt)) }
    {
        are_written(&self.dests[since..], written)
    }

    /// Leaves of the written set what is a destination here.
    pub fn cut(&self, written: &mut Vec<u16>)
        ensures { written.new.items ≡ filter (λ d. has d (dest_names self.now)) written.old.items }
    {
        written.retain(|name| self.has_dest(*name));
    }
}
