use crate::failure::Failure;
use crate::rate::{now, rate};
use artifact_rules::check;
use layouts::check_layout;
use metadata::{
    File, Layout, Link, Listing, Moment, Rule, Side, Step, read_layout_file, read_link_file,
    read_targets_file,
};
use std::alloc::{AllocError, Global};
use std::fs;
use std::rt::{Clock, Files};
use std::time::Duration;

/// Prints, for a target that these targets metadata list with a layout, how often per second the artifact rules of all steps are checked, and
/// how often the whole layout with its signatures. The links are files, the first of them one for each step, in the order of the steps.
pub fn measure(
    rt: &(impl Files + Clock + Print + AllocGlobal),
    rounds: u32,
    targets: &str,
    path: &str,
    layout: &str,
    links: &[String],
) -> Result<(), Failure> {
    let targets = read_targets_file(rt.alloc(), &fs::read(rt, targets)?)?;
    match targets.body.listing(path) {
        Some(listing) => measure_listed(rt, rounds, listing, layout, links),
        None => Err(Failure::NotAllowed),
    }
}

// The same of a target that is listed so.
fn measure_listed(
    rt: &(impl Files + Clock + Print + AllocGlobal),
    rounds: u32,
    listing: &Listing,
    layout: &str,
    links: &[String],
) -> Result<(), Failure> {
    let layout = read_layout_file(rt.alloc(), &fs::read(rt, layout)?)?;
    measure_layout(rt, rounds, listing, &layout, links)
}

fn measure_layout(
    rt: &(impl Files + Clock + Print + AllocGlobal),
    rounds: u32,
    listing: &Listing,
    layout: &File<Layout>,
    links: &[String],
) -> Result<(), Failure> {
    let links = links_of(rt, links)?;
    tell(rt, rounds, listing, layout, &links)
}

fn tell(
    rt: &(impl Clock + Print + AllocGlobal),
    rounds: u32,
    listing: &Listing,
    layout: &File<Layout>,
    links: &[File<Link>],
) -> Result<(), Failure> {
    let steps = &layout.body.steps;
    let ruling = time_of_rules(rt, rt.alloc(), rounds, steps, links)?;
    let checking = time_of_layout(rt, rt.alloc(), rounds, listing, layout, links)?;
    println!(rt;
        "steps {} links {} rules {} layout {}",
        steps.len(),
        links.len(),
        rate(1, rounds, ruling),
        rate(1, rounds, checking)
    )?;
    Ok(())
}

fn links_of(rt: &(impl Files + AllocGlobal), names: &[String]) -> Result<Vec<File<Link>>, Failure> {
    let mut links = Vec::new(rt.alloc());
    for name in names {
        let link = read_link_file(rt.alloc(), &fs::read(rt, name)?)?;
        links.push(link).map_err(AllocError::from)?;
    }
    Ok(links)
}

// How long the artifact rules of all steps take, each over the link in its place.
fn time_of_rules(
    rt: &impl Clock,
    alloc: Global,
    rounds: u32,
    steps: &[Step],
    links: &[File<Link>],
) -> Result<Duration, Failure> {
    let mut bodies = Vec::new(alloc);
    for link in links.iter().take(steps.len()) {
        bodies.push(&link.body).map_err(AllocError::from)?;
    }
    time_of_bodies(rt, alloc, rounds, steps, &bodies)
}

fn time_of_bodies(
    rt: &impl Clock,
    alloc: Global,
    rounds: u32,
    steps: &[Step],
    links: &[&Link],
) -> Result<Duration, Failure> {
    let start = now(rt)?;
    for _ in 0..rounds {
        if !all_hold(alloc, steps, links) {
            return Err(Failure::NotAllowed);
        }
    }
    Ok(now(rt)?.duration_since(start))
}

// Whether the rules of each step hold of the link in its place.
fn all_hold(alloc: Global, steps: &[Step], links: &[&Link]) -> bool {
    for at in 0..steps.len() {
        let (Some(step), Some(link)) = (steps.get(at), links.get(at)) else {
            return false;
        };
        if !holds(alloc, &step.materials, Side::Materials, link, links)
            || !holds(alloc, &step.products, Side::Products, link, links)
        {
            return false;
        }
    }
    true
}

fn holds(alloc: Global, rules: &[Rule], side: Side, link: &Link, links: &[&Link]) -> bool {
    check(alloc, rules, side, link, links).is_ok()
}

// How long the whole check of the layout takes, at the first moment there is.
fn time_of_layout(
    rt: &impl Clock,
    alloc: Global,
    rounds: u32,
    listing: &Listing,
    layout: &File<Layout>,
    links: &[File<Link>],
) -> Result<Duration, Failure> {
    let (Some(said), Some(moment)) = (&listing.layout, Moment::new(0)) else {
        return Err(Failure::NotAllowed);
    };
    let owners = (&said.owners, &said.keys);
    let start = now(rt)?;
    for _ in 0..rounds {
        let (step, product) = (&said.step, &said.product);
        if check_layout(
            alloc,
            layout,
            owners,
            links,
            step,
            product,
            &listing.digest,
            moment,
        )
        .is_err()
        {
            return Err(Failure::NotAllowed);
        }
    }
    Ok(now(rt)?.duration_since(start))
}
