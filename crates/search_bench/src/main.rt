//! `search_bench JOB SEED SHARE` does a job that users wait for, on inputs that it makes from the number SEED and from the files `shape.txt`
//! and `words.txt` of the folder that it runs in, and prints a digest of all that the calls answered. SHARE is how much of the job
//! is done, in thousandths. `bench/run` times it.
//!
//! The jobs: `files`, a table is read and one text searched, again and again; `plain`, long texts of ASCII; `scripts`, long texts of
//! other scripts; `matches`, texts in which the pattern, or its beginning, stands everywhere; `steps`, texts and tables whose units are taken
//! step by step; `short`, titles, next matches, and short pieces with saved states; `all`, each of them.
#![tactic(auto)]

mod digest;
mod files;
mod long;
mod random;
mod shape;
mod short;
mod texts;

use crate::digest::Digest;
use crate::random::Random;
use crate::shape::TableText;
use anyhow::{Result, bail};
use std::alloc::Global;
use std::{env, fs};

/// What a job is made of.
#[derive(Drop)]
pub struct Inputs<'a> {
    pub alloc: Global,
    /// The lists of words.
    pub lists: &'a str,
    /// A table file.
    pub table: TableText,
    pub random: Random,
    /// How much of the job is done, in thousandths.
    pub share: usize,
}

impl<'a> Inputs<'a> {
    /// The share of a number.
    pub fn share_of(&self, number: usize) -> usize {
        number.wrapping_mul(self.share) / 1000
    }
}

fn main(rt: HostRuntime) -> Result<()> {
    let alloc = rt.alloc();
    let given: Vec<String> = env::args(&rt)?.collect(alloc)?;
    let [_, job, seed, share] = given.as_slice() else {
        bail!("the words are not JOB SEED SHARE");
    };
    let shape = fs::read_to_string(&rt, "shape.txt")?;
    let lists = fs::read_to_string(&rt, "words.txt")?;
    let mut random = Random::new(seed.parse::<u64>()?);
    let mut inputs = Inputs {
        alloc,
        lists: &lists,
        table: TableText::new(alloc, &shape, &mut random)?,
        random,
        share: share.parse::<usize>()?,
    };
    let mut digest = Digest::new();
    do_job(&mut inputs, job, &mut digest)?;
    println!(rt; "{job}: {} ranges, digest {}", digest.ranges, digest.value)?;
    Ok(())
}

/// Does a job, or each of them.
fn do_job(inputs: &mut Inputs<'_>, job: &str, digest: &mut Digest) -> Result<()> {
    match job {
        "files" => files::files(inputs, digest),
        "plain" => long::plain(inputs, digest),
        "scripts" => long::scripts(inputs, digest),
        "matches" => long::matches(inputs, digest),
        "steps" => long::steps(inputs, digest),
        "short" => short::short(inputs, digest),
        "all" => do_all(inputs, digest),
        _ => bail!("no job {job}"),
    }
}

/// Does all jobs.
fn do_all(inputs: &mut Inputs<'_>, digest: &mut Digest) -> Result<()> {
    files::files(inputs, digest)?;
    long::plain(inputs, digest)?;
    long::scripts(inputs, digest)?;
    long::matches(inputs, digest)?;
    long::steps(inputs, digest)?;
    short::short(inputs, digest)
}
