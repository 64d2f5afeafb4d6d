//! Writes a log page.
ghost use Rattle.std.specs.Prelude.{◌≡◌, ◌≤◌, ◌<◌, ◌^◌, ◌++◌, length, All, OnOk, IfOk, IfErr, Ok, ℕ};
ghost use Rattle.std.specs.List.{flat_map, AllByRecursion};
ghost use Rattle.mp_page.specs.Page.{page_in};
ghost use Rattle.mp_page.specs.Grammar.{IsPage};
ghost use Rattle.mp_page.specs.Written.{word, zeros, group_bytes, page_bytes, CanWritePage, Fits};

use crate::page::{Group, Page, PageError};
use byteorder::{ByteOrder, LittleEndian};
use std::alloc::{AllocError, Global};

#[tactic(auto, unfolding(crate::specs::Written::word))]
fn put_u16(out: &mut Vec<u8>, n: u16) -> Result<(), AllocError>
    ensures { OnOk result (out.new.items ≡ out.old.items ++ word 2 n) }
{
    let mut buf = [0u8; 2];
    LittleEndian::write_u16(&mut buf, n);
    out.extend_from_slice(&buf)
}

#[tactic(auto, unfolding(crate::specs::Written::word))]
fn put_u32(out: &mut Vec<u8>, n: u32) -> Result<(), AllocError>
    ensures { OnOk result (out.new.items ≡ out.old.items ++ word 4 n) }
{
    let mut buf = [0u8; 4];
    LittleEndian::write_u32(&mut buf, n);
    out.extend_from_slice(&buf)
}

#[tactic(auto, unfolding(crate::specs::Written::word))]
fn put_u64(out: &mut Vec<u8>, n: u64) -> Result<(), AllocError>
    ensures bytes { OnOk result (out.new.items ≡ out.old.items ++ word 8 n) }
    ensures fits { n < 2 ^ 64 }
{
    let mut buf = [0u8; 8];
    LittleEndian::write_u64(&mut buf, n);
    out.extend_from_slice(&buf)
}

#[tactic(auto, unfolding(crate::specs::Written::zeros))]
fn put_zeros<const N: usize>(out: &mut Vec<u8>) -> Result<(), AllocError>
    requires { N < 2 ^ 16 }
    ensures { OnOk result (out.new.items ≡ out.old.items ++ zeros N) }
{
    out.extend_from_slice(&[0; N])
}

fn put_numbers(out: &mut Vec<u8>, numbers: &[u32]) -> Result<(), AllocError>
    ensures bytes { OnOk result (out.new.items ≡ out.old.items ++ flat_map (word 4) numbers.now) }
    ensures fits { AllByRecursion (λ n. n < 2 ^ 32) numbers.now }
{
    for n in numbers {
        put_u32(out, *n)?;
    }
    Ok(())
}

fn put_group(out: &mut Vec<u8>, group: &Group) -> Result<(), AllocError>
    requires { length group.now.nsids < 2 ^ 32 }
    ensures bytes { OnOk result (out.new.items ≡ out.old.items ++ group_bytes group.now) }
    ensures fits { OnOk result (Fits group.now) }
{
    put_u32(out, group.id)?;
    put_u32(out, group.nsids.len() as u32)?;
    put_u64(out, group.changes)?;
    out.push(group.state)?;
    put_zeros::<15>(out)?;
    put_numbers(out, group.nsids.as_slice())
}

fn put_groups(out: &mut Vec<u8>, groups: &[Group]) -> Result<(), AllocError>
    requires { All (λ group. length group.nsids < 2 ^ 32) groups.now }
    ensures bytes { OnOk result (out.new.items ≡ out.old.items ++ flat_map group_bytes groups.now) }
    ensures fits { OnOk result (All Fits groups.now) }
{
    for group in groups {
        put_group(out, group)?;
    }
    Ok(())
}

/// Writes log page 0Ch, with zeros in the reserved bytes.
///
/// The page has at most 65,535 groups, whose identifiers aren't 0 and whose states are from 1 to 15, and takes at most
/// 65,536 bytes.
///
/// # Errors
///
/// `NoMemory` where memory runs out, and no other.
pub fn write_page(alloc: Global, page: &Page) -> Result<Vec<u8>, PageError>
    requires { CanWritePage page.now }
    ensures bytes { IfOk result (λ v. v.items ≡ page_bytes page.now) }
    // What is written is the page, under each bound that its groups keep.
    ensures page { IfOk result (λ v. (max : ℕ) → AllByRecursion (λ group. group.id ≤ max) page.now.groups → IsPage max v.items page.now) }
    // And it reads back as the page.
    ensures again { IfOk result (λ v. (max : ℕ) → AllByRecursion (λ group. group.id ≤ max) page.now.groups → page_in max v.items ≡ Ok page.now) }
    ensures memory { IfErr result (λ e. e ≡ PageError.NoMemory) }
{
    let mut out = Vec::new(alloc);
    put_u64(&mut out, page.changes)?;
    put_u16(&mut out, page.groups.len() as u16)?;
    put_zeros::<6>(&mut out)?;
    put_groups(&mut out, page.groups.as_slice())?;
    Ok(out)
}
