ghost use Rattle.std.specs.Prelude.{◌↔◌, IfOk, IsTrue};
ghost use Rattle.vmv_proof_words.specs.Taking.{Tells, Takes};
ghost use Rattle.vmv_proof_text.specs.Parts.{left_part};
ghost use Rattle.vmv_proof_text.specs.Lines.{IsLine};
ghost use Rattle.vmv_proof_line.specs.Reading.{ReadsLine};
ghost use Rattle.vmv_proof_line.specs.SiteWords.{IsSiteWord, IsSiteLoosely, TakesSiteLoosely, IsLeftLoosely};

use crate::fault::{LineFault, fault_of};
use crate::halves::split_at_first;
use sqlite_items::Items;
use std::alloc::{AllocError, Global};
use vmv_cert::Sites;
use vmv_proof_words::{Words, count_of, is_number};
use vmv_tree::{Name, NamedSite};

/// The site that the word tells.
fn told_site(word: &[u8]) -> Option<NamedSite>
    ensures { Tells IsSiteWord word.now result }
{
    let Some((name, number)) = split_at_first(word, b'#') else {
        return None;
    };
    let Some(proc) = Name::read(name) else {
        return None;
    };
    match count_of(number) {
        Some(index) => Some(NamedSite { proc, index }),
        None => None,
    }
}

/// Whether the word would tell a site, were its number of another size.
fn is_site_loosely(word: &[u8]) -> bool
    ensures { IsTrue result ↔ IsSiteLoosely word.now }
{
    let Some((name, number)) = split_at_first(word, b'#') else {
        return false;
    };
    let Some(_) = Name::read(name) else {
        return false;
    };
    is_number(number)
}

/// Takes a site.
fn next_site(words: &mut Words) -> Option<NamedSite>
    ensures { Takes IsSiteWord words.old words.new result }
{
    let Some(word) = words.next_word() else {
        return None;
    };
    told_site(word)
}

/// Takes a site whose number may be of any size, and tells whether there is one.
fn takes_site_loosely(words: &mut Words) -> bool
    ensures { TakesSiteLoosely words.old words.new result }
{
    let Some(word) = words.next_word() else {
        return false;
    };
    is_site_loosely(word)
}

/// The sites that the line tells. It fails where there is no memory.
fn told_left(alloc: Global, line: &[u8]) -> Result<Option<Sites>, AllocError>
    ensures { IfOk result (λ told. Tells (λ sites. IsLine (left_part sites)) line.now told) }
{
    let Some(mut words) = Words::behind(line, b"left") else {
        return Ok(None);
    };
    let Some(count) = words.next_count() else {
        return Ok(None);
    };
    let mut sites = Items::new(alloc);
    while !words.is_done() {
        let Some(site) = next_site(&mut words) else {
            return Ok(None);
        };
        sites.push(site)?;
    }
    if sites.len() != count as usize {
        return Ok(None);
    }
    Ok(Some(sites))
}

/// Whether the line would tell sites, were their numbers of another size.
fn is_left_loosely(line: &[u8]) -> bool
    ensures { IsTrue result ↔ IsLeftLoosely line.now }
{
    let Some(mut words) = Words::behind(line, b"left") else {
        return false;
    };
    let Some(count) = words.next_natural() else {
        return false;
    };
    let mut found = 0u64;
    while !words.is_done() {
        if found >= count {
            return false;
        }
        if !takes_site_loosely(&mut words) {
            return false;
        }
        found += 1;
    }
    found == count
}

/// Reads the sites that may fail.
pub fn read_left(alloc: Global, line: &[u8]) -> Result<Sites, LineFault>
    ensures { ReadsLine left_part line.now result }
{
    match told_left(alloc, line) {
        Ok(Some(sites)) => Ok(sites),
        Ok(None) => Err(fault_of(is_left_loosely(line))),
        Err(_) => Err(LineFault::Memory),
    }
}
