ghost use Rattle.std.specs.Prelude.{◌≡◌, ◌≤◌, ◌+◌, length, take, drop};
ghost use Rattle.vmv_routes.specs.Paths.{before, behind, path_of, part_of, number_in, label_in, project_in, submission_in};

use vmv_head::{is_digits, value_of};
use vmv_keeper::Label;

/// Where the first byte of this kind is; the end, where there is none.
fn place_of(bytes: &[u8], stop: u8) -> usize
    ensures within { result ≤ length bytes.now }
    ensures before { take result bytes.now ≡ before stop bytes.now }
    ensures behind { drop (result + 1) bytes.now ≡ behind stop bytes.now }
{
    for i in 0..bytes.len() {
        if bytes[i] == stop {
            return i;
        }
    }
    bytes.len()
}

fn before(bytes: &[u8], stop: u8) -> &[u8]
    ensures { result.now ≡ before stop bytes.now }
{
    &bytes[..place_of(bytes, stop)]
}

fn behind(bytes: &[u8], stop: u8) -> &[u8]
    ensures { result.now ≡ behind stop bytes.now }
{
    let place = place_of(bytes, stop);
    if place < bytes.len() {
        &bytes[place + 1..]
    } else {
        &[]
    }
}

/// The path of a target: up to its first question mark.
pub(crate) fn path_of(target: &[u8]) -> &[u8]
    ensures { result.now ≡ path_of target.now }
{
    before(target, b'?')
}

/// A path's part of this number, from 0 on; it is empty where there is none.
fn part_of(path: &[u8], number: usize) -> &[u8]
    ensures { result.now ≡ part_of number path.now }
{
    if number == 0 {
        before(path, b'/')
    } else {
        part_of(behind(path, b'/'), number - 1)
    }
}

/// The number that a part writes: 1 to 10 digits of a u32.
fn number_in(part: &[u8]) -> Option<u32>
    ensures { result ≡ number_in part.now }
{
    if part.len() > 10 || !is_digits(part) {
        return None;
    }
    let number = value_of(part, 1 << 32);
    if number < 1 << 32 {
        Some(number as u32)
    } else {
        None
    }
}

/// The label that some bytes are.
pub(crate) fn label_in(bytes: &[u8]) -> Option<Label>
    ensures { result ≡ label_in bytes.now }
{
    Label::read(bytes)
}

/// What a path names: a project.
#[derive(Clone, Copy, Debug, Drop)]
pub(crate) struct ProjectPath {
    pub(crate) owner: Label,
    pub(crate) project: Label,
}

/// What a path names: a project's submission.
#[derive(Clone, Copy, Debug, Drop)]
pub(crate) struct SubmissionPath {
    pub(crate) owner: Label,
    pub(crate) project: Label,
    pub(crate) submission: u32,
}

/// The project that a path names, where its parts can be read.
pub(crate) fn project_in(path: &[u8]) -> Option<ProjectPath>
    ensures { result ≡ project_in path.now }
{
    let owner = label_in(part_of(path, 2))?;
    let project = label_in(part_of(path, 3))?;
    Some(ProjectPath { owner, project })
}

/// The submission that a path names, where its parts can be read.
pub(crate) fn submission_in(path: &[u8]) -> Option<SubmissionPath>
    ensures { result ≡ submission_in path.now }
{
    let ProjectPath { owner, project } = project_in(path)?;
    let submission = number_in(part_of(path, 5))?;
    Some(SubmissionPath {
        owner,
        project,
        submission,
    })
}
