//! What a block's reads see now.
ghost use Rattle.std.specs.Prelude.{◌≡◌, ◌+◌, ◌≤◌, ◌++◌, IfOk, OnOk, IfNone, IfSome, List, length};
ghost use Rattle.psac_ops.specs.Value.{Value};
ghost use Rattle.psac_ops.specs.Table.{same_value};
ghost use Rattle.psac_ops.specs.declared.plain.Handle.{Handle};
ghost use Rattle.psac_ops.specs.Named.{value_of as plain_value, same_handle};
ghost use Rattle.psac_record.specs.declared.parts.Seen.{Seen as Saw};
ghost use Rattle.psac_record.specs.Kept.{reads_of};
ghost use Rattle.psac_traced.specs.Mending.{unlike};
ghost use Rattle.psac_trace.specs.Rights.{Sees};
ghost use Rattle.psac_trace.specs.Asking.{Looked};
ghost use Rattle.psac_repair.specs.Seen.{Known, SeenNow};
ghost use Rattle.psac_repair.specs.Changing.{Changed};
ghost use Rattle.psac_repair.specs.Marks.{Present};
ghost use Rattle.psac_traced.specs.Holds.{EachOf};

use psac_ops::{Plain, from_words};
use psac_record::Seen;
use psac_values::{ValuePass, Values};
use sqlite_items::Items;
use std::alloc::{AllocError, Global};

// The value of a modifiable that the pass knows.
fn value_now(values: &Values, pass: &mut ValuePass, seen: &Seen) -> Plain
    requires table { pass.old.table ≡ values.now }
    requires known { (x : Value Handle) × Sees pass.old.knows seen.now.from x }
    ensures table { pass.new.table ≡ pass.old.table }
    ensures looked { Looked pass.old.knows pass.new.knows }
    ensures once { pass.new.knows.looks ≤ pass.old.knows.looks + 1 }
    ensures value { (x : Value Handle) → Sees pass.old.knows seen.now.from x → plain_value result ≡ x }
{
    let words = values.read(pass, seen.from);
    match from_words(words) {
        Some(value) => value,
        None => Plain::Nil,
    }
}

// The same reads, each with the value that is there now, behind others.
#[tactic(auto, using(crate::proofs::Sighted::looked_none))]
fn seen_now(
    values: &Values,
    pass: &mut ValuePass,
    reads: &[Seen],
    all: &mut Items<Seen>,
) -> Result<(), AllocError>
    requires table { pass.old.table ≡ values.now }
    requires known { Known pass.old.knows reads.now }
    ensures table { pass.new.table ≡ pass.old.table }
    ensures looked { Looked pass.old.knows pass.new.knows }
    ensures each { pass.new.knows.looks ≤ pass.old.knows.looks + length reads.now }
    ensures seen { OnOk result ((more : List Saw) × (all.new ≡ all.old ++ more) × SeenNow pass.old.knows reads.now more) }
{
    let [first, rest @ ..] = reads else {
        return Ok(());
    };
    let value = value_now(values, pass, first);
    all.push(Seen {
        from: first.from,
        link: first.link,
        value,
    })?;
    seen_now(values, pass, rest, all)
}

// The same reads with the values that are there now.
fn reads_now(
    alloc: Global,
    values: &Values,
    pass: &mut ValuePass,
    reads: &[Seen],
) -> Result<Items<Seen>, AllocError>
    requires table { pass.old.table ≡ values.now }
    requires known { Known pass.old.knows reads.now }
    ensures table { pass.new.table ≡ pass.old.table }
    ensures looked { Looked pass.old.knows pass.new.knows }
    ensures each { pass.new.knows.looks ≤ pass.old.knows.looks + length reads.now }
    ensures seen { IfOk result (λ again. SeenNow pass.old.knows reads.now again) }
{
    let mut all = Items::new(alloc);
    seen_now(values, pass, reads, &mut all)?;
    Ok(all)
}

fn is_same(one: &Plain, two: &Plain) -> bool
    ensures { result ≡ same_value same_handle (plain_value one.now) (plain_value two.now) }
{
    *one == *two
}

// Whether reads of the same modifiables gave other values.
fn differ(reads: &[Seen], again: &[Seen]) -> bool
    ensures { result ≡ unlike same_handle (reads_of reads.now) (reads_of again.now) }
{
    let [read, reads @ ..] = reads else {
        return false;
    };
    let [now, again @ ..] = again else {
        return false;
    };
    !is_same(&read.value, &now.value) || differ(reads, again)
}

/// What a block reads now, where that isn't what it read.
#[tactic(auto, using(crate::proofs::Changing::changed_now, crate::proofs::Sighted::same_present))]
pub fn changed_reads(
    alloc: Global,
    values: &Values,
    pass: &mut ValuePass,
    reads: &[Seen],
) -> Result<Option<Items<Seen>>, AllocError>
    requires table { pass.old.table ≡ values.now }
    requires known { Known pass.old.knows reads.now }
    ensures table { pass.new.table ≡ pass.old.table }
    ensures looked { Looked pass.old.knows pass.new.knows }
    ensures each { pass.new.knows.looks ≤ pass.old.knows.looks + length reads.now }
    ensures same { IfOk result (λ found. IfNone found (EachOf (Present pass.old.knows) (reads_of reads.now))) }
    ensures changed { IfOk result (λ found. IfSome found (λ again. Changed pass.old.knows reads.now again)) }
{
    let again = reads_now(alloc, values, pass, reads)?;
    if differ(reads, again.as_slice()) {
        return Ok(Some(again));
    }
    Ok(None)
}
