//! The jobs that the benchmark times, on texts that they make from a seed: `jobs JOB COUNT SEED`
//! prints a digest of all results. COUNT says how much is made: pages of 100 links, identifiers,
//! requests, lines for each command, texts of each awkward form, or pages in many languages of 20
//! links; `store` keeps what `registry` keeps, as owned texts, and `edits` changes what `requests` reads. The job
//! `all` prints the digest of all jobs but `texts`, `store` and `edits` together, and then that of `texts`.
#![tactic(auto)]

mod lines;

use job_library::awkward::awkward;
use job_library::buffers::buffers;
use job_library::digest::Digest;
use job_library::edits::edits;
use job_library::error::JobError;
use job_library::languages::languages;
use job_library::links::links;
use job_library::random::Random;
use job_library::registry::registry;
use job_library::requests::requests;
use job_library::store::store;
use lines::lines;
use std::alloc::Global;
use std::process::ExitCode;
use std::{env, io};

/// Runs the job of this name.
fn run_job(
    alloc: Global,
    job: &str,
    count: u64,
    random: &mut Random,
    digest: &mut Digest,
) -> Result<(), JobError> {
    match job {
        "links" => links(alloc, count, random, digest),
        "registry" => registry(alloc, count, random, digest),
        "requests" => requests(alloc, count, random, digest),
        "lines" => lines(alloc, count, random, digest),
        "buffers" => buffers(alloc, count, random, digest),
        "awkward" => awkward(alloc, count, random, digest),
        "edits" => edits(alloc, count, random, digest),
        "store" => store(alloc, count, random, digest),
        "texts" => languages(alloc, count, random, digest),
        _ => Err(JobError::Usage),
    }
}

/// Runs the job of this name, or all but `texts`, `store` and `edits`, and returns the digest of the results.
fn run(alloc: Global, job: &str, count: u64, seed: u64) -> Result<u64, JobError> {
    let mut random = Random::new(seed);
    let mut digest = Digest::new();
    if job != "all" {
        run_job(alloc, job, count, &mut random, &mut digest)?;
        return Ok(digest.sum());
    }
    for job in [
        "links", "registry", "requests", "lines", "buffers", "awkward",
    ] {
        run_job(alloc, job, count, &mut random, &mut digest)?;
    }
    Ok(digest.sum())
}

/// Reads the count and the seed, runs the job, and returns the digests to print.
fn run_words(alloc: Global, words: &[String]) -> Result<Vec<u64>, JobError> {
    let [_, job, count, seed] = words else {
        return Err(JobError::Usage);
    };
    match (count.as_str().parse::<u64>(), seed.as_str().parse::<u64>()) {
        (Ok(count), Ok(seed)) => run_all(alloc, job.as_str(), count, seed),
        _ => Err(JobError::Usage),
    }
}

/// Runs the job of this name, and `texts` after the others if that is `all`.
fn run_all(alloc: Global, job: &str, count: u64, seed: u64) -> Result<Vec<u64>, JobError> {
    let mut digests = Vec::new(alloc);
    digests.push(run(alloc, job, count, seed)?)?;
    if job == "all" {
        digests.push(run(alloc, "texts", count, seed)?)?;
    }
    Ok(digests)
}

fn main(rt: HostRuntime) -> io::Result<ExitCode> {
    let mut words = Vec::new(rt.alloc());
    for word in env::args(&rt)? {
        words.push(word)?;
    }
    match run_words(rt.alloc(), &words) {
        Ok(digests) => {
            for digest in &digests {
                println!(rt; "{digest:016x}")?;
            }
            Ok(ExitCode::from(0))
        }
        Err(error) => {
            eprintln!(rt; "{error}")?;
            Ok(ExitCode::from(1))
        }
    }
}
