// The good links of a step.
ghost use Rattle.std.specs.Prelude.{◌≡◌, ◌↔◌, ◌⊎◌, ◌≤◌, ◌&&◌, length, map, IfOk, IfErr, IsTrue, bytes_eq, option_map};
ghost use Rattle.std.specs.List.{AllZip, list_any};
ghost use Rattle.artifact_rules.specs.Views.{links_view};
ghost use Rattle.keys_roles.specs.steps.Counting.{IsIn};
ghost use Rattle.keys_roles.specs.Views.{id_text, ids_view, table_view};
ghost use Rattle.denials.specs.Numbers as no;
ghost use Rattle.denials.specs.Orders.{check};
ghost use Rattle.metadata.specs.FileViews.{link_file};
ghost use Rattle.document_parts.specs.RuleViews.{link_view};
ghost use Rattle.document_parts.specs.Views.{step_view};
ghost use Rattle.layouts.specs.Faults.{IsDeniedBy};
ghost use Rattle.layouts.specs.Layouts.{AllAgree, EnoughKeys, all};
ghost use Rattle.layouts.specs.Views.{files_view};
ghost use Rattle.layouts.specs.steps.Gathering.{IsAgreed, IsEnough, MakesGood, Signed, SignsAs, Some_of, distinct_of, first_of, goods_view, tops_of};

use crate::agreeing::all_agree;
use crate::faults::LayoutFault;
use crate::signing::signer;
use crate::step_links::{Found, Good, StepLink};
use keys_roles::{KeyId, KeyTable};
use metadata::{File, Link, Step};
use std::alloc::{AllocError, Global};

/// For each step one of its good links, and whether the good links of each agree, or a refusal where too few keys have one.
pub(crate) fn gather_all<'a>(
    alloc: Global,
    steps: &[Step],
    keys: &KeyTable,
    links: &'a [File<Link>],
) -> Result<Found<'a>, LayoutFault>
    ensures links { IfOk result (λ found. AllZip (IsEnough (table_view keys.now) (files_view links.now)) (map step_view steps.now) (links_view found.links.items)) }
    ensures agree { IfOk result (λ found. IsAgreed (all (λ s. check no.links_disagree (AllAgree (table_view keys.now) (files_view links.now) s)) (map step_view steps.now)) found.agree) }
    ensures err { IfErr result (IsDeniedBy (all (λ s. check no.step_threshold (EnoughKeys (table_view keys.now) (files_view links.now) s)) (map step_view steps.now))) }
{
    let mut found = Vec::new(alloc);
    let mut agree = true;
    let mut rest = steps;
    'steps: while let Some((step, later)) = rest.split_first() {
        let one = step_link(alloc, step, keys, links)?;
        found.push(one.link)?;
        agree = both(agree, one.agree);
        rest = later;
    }
    Ok(Found {
        links: found,
        agree,
    })
}

fn both(a: bool, b: bool) -> bool
    ensures { result ≡ a && b }
{
    a && b
}

// One of the good links of the step, or a refusal where too few keys have one.
fn step_link<'a>(
    alloc: Global,
    step: &Step,
    keys: &KeyTable,
    links: &'a [File<Link>],
) -> Result<StepLink<'a>, LayoutFault>
    ensures link { IfOk result (λ one. IsEnough (table_view keys.now) (files_view links.now) (step_view step.now) (link_view one.link.now)) }
    ensures agree { IfOk result (λ one. IsTrue one.agree ↔ (AllAgree (table_view keys.now) (files_view links.now) (step_view step.now))) }
    ensures err { IfErr result (IsDeniedBy (check no.step_threshold (EnoughKeys (table_view keys.now) (files_view links.now) (step_view step.now)))) }
{
    let goods = gather(alloc, step, keys, links)?;
    let Some(link) = first_link(&goods) else {
        return Err(LayoutFault::StepThreshold);
    };
    if count_tops(&goods) < usize::from(step.rule.threshold) {
        return Err(LayoutFault::StepThreshold);
    }
    let agree = all_agree(&goods);
    Ok(StepLink { link, agree })
}

// The link of the first of them.
fn first_link<'a>(goods: &[Good<'a>]) -> Option<&'a Link>
    ensures { option_map (λ l. link_view l.now) result ≡ first_of (goods_view goods.now) }
{
    let (first, _) = goods.split_first()?;
    Some(first.link)
}

// The good links of the step, with each public key that has signed one for it.
fn gather<'a>(
    alloc: Global,
    step: &Step,
    keys: &KeyTable,
    links: &'a [File<Link>],
) -> Result<Vec<Good<'a>>, AllocError>
    ensures { IfOk result (λ goods. (g : Signed) → IsIn (goods_view goods.items) g ↔ (Some_of (MakesGood (table_view keys.now) (step_view step.now)) (files_view links.now) g)) }
{
    let mut goods = Vec::new(alloc);
    let mut rest = links;
    'links: while let Some((file, later)) = rest.split_first() {
        goods = with_link(alloc, goods, step, keys, file)?;
        rest = later;
    }
    Ok(goods)
}

// The same with those of one more file.
fn with_link<'a>(
    alloc: Global,
    goods: Vec<Good<'a>>,
    step: &Step,
    keys: &KeyTable,
    file: &'a File<Link>,
) -> Result<Vec<Good<'a>>, AllocError>
    ensures { IfOk result (λ more. (g : Signed) → IsIn (goods_view more.items) g ↔ (IsIn (goods_view goods.entry.items) g ⊎ MakesGood (table_view keys.now) (step_view step.now) (link_file file.now) g)) }
{
    if file.body.name.as_str() == step.name.as_str() {
        with_signers(alloc, goods, &step.rule.keyids, keys, file)
    } else {
        Ok(goods)
    }
}

// The same with the keys of these ids that have signed the file.
fn with_signers<'a>(
    alloc: Global,
    goods: Vec<Good<'a>>,
    ids: &[KeyId],
    keys: &KeyTable,
    file: &'a File<Link>,
) -> Result<Vec<Good<'a>>, AllocError>
    ensures { IfOk result (λ more. (g : Signed) → IsIn (goods_view more.items) g ↔ (IsIn (goods_view goods.entry.items) g ⊎ Some_of (SignsAs (table_view keys.now) (link_file file.now)) (ids_view ids.now) g)) }
{
    let mut goods = goods;
    let mut rest = ids;
    'ids: while let Some((id, later)) = rest.split_first() {
        goods = with_signer(alloc, goods, id, keys, file)?;
        rest = later;
    }
    Ok(goods)
}

// The same with the key of this id, if that has signed the file.
fn with_signer<'a>(
    alloc: Global,
    goods: Vec<Good<'a>>,
    id: &KeyId,
    keys: &KeyTable,
    file: &'a File<Link>,
) -> Result<Vec<Good<'a>>, AllocError>
    ensures { IfOk result (λ more. (g : Signed) → IsIn (goods_view more.items) g ↔ (IsIn (goods_view goods.entry.items) g ⊎ SignsAs (table_view keys.now) (link_file file.now) (id_text id.now) g)) }
{
    let Some(top) = signer(alloc, keys, id, &file.source)? else {
        return Ok(goods);
    };
    let mut goods = goods;
    goods.push(Good {
        link: &file.body,
        top,
    })?;
    Ok(goods)
}

// How many distinct public keys there are.
fn count_tops(goods: &[Good<'_>]) -> usize
    ensures count { result ≡ length (distinct_of (tops_of (goods_view goods.now))) }
    ensures most { result ≤ length goods.now }
{
    match goods.split_first() {
        Some((good, later)) => {
            let count = count_tops(later);
            if is_among(later, &good.top) {
                count
            } else {
                count + 1
            }
        }
        None => 0,
    }
}

// Whether the public key is one of them.
fn is_among(goods: &[Good<'_>], top: &[u8; 56]) -> bool
    ensures { result ≡ list_any (λ t. bytes_eq t top.now) (tops_of (goods_view goods.now)) }
{
    match goods.split_first() {
        Some((good, later)) => good.top == *top || is_among(later, top),
        None => false,
    }
}
