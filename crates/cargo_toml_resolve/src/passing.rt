//! The binaries of removed features are passed on.
ghost use Rattle.std.specs.Prelude.{◌≡◌, ◌<◌, ◌≤◌, ◌∷◌, ◌&&◌, ◌||◌, [], ℕ, bytes_eq, false, length};
ghost use Rattle.std.specs.Prelude.{nat_eq, not, take, true, IfOk, OnOk};
ghost use Rattle.cargo_toml_graph.specs.{Action.Text, Reach.Among, Removal.put_each};
ghost use Rattle.cargo_toml_features.specs.Views.{set_has};
ghost use Rattle.cargo_toml_resolve.specs.{Numbers.IsWanted, Passing.AreKnown, Passing.Knows};
ghost use Rattle.cargo_toml_resolve.specs.Passing.{MayKnow, bins_of, passed_below, AreSameButBins};
ghost use Rattle.cargo_toml_resolve.specs.{Passing.Puts, Texts.texts_now};

use crate::rows::Rows;
use cargo_toml_features::features::Feature;
use cargo_toml_features::node::Node;
use cargo_toml_features::sets::set_of;
use std::alloc::{AllocError, Global};
use std::collections::BTreeSet;

// So many binaries a removed feature passes on: the ten of the definitions.
const MAX_PASSED_BINS: usize = 10;

/// The first ten of a feature's binaries, as a copy: the lists may change while it is read. It
/// fails only when out of memory.
pub fn first_ten<'m>(alloc: Global, bins: &[&'m str]) -> Result<Vec<&'m str>, AllocError>
    ensures { IfOk result (λ v. texts_now v.items ≡ take 10 (texts_now bins.now)) }
{
    let count = bins.len().min(MAX_PASSED_BINS);
    bins[..count].to_vec(alloc)
}

// A set for each feature, by places. Most features never come to have another binary, so
// none is filled yet.
fn known_bins<'m>(
    alloc: Global,
    features: &[Feature<'m>],
) -> Result<Vec<BTreeSet<&'m str>>, AllocError>
    ensures { IfOk result (λ v. AreKnown v.items features.now) }
{
    let mut known = Vec::with_capacity(alloc, features.len())?;
    for _ in features {
        known.push(BTreeSet::new(alloc))?;
    }
    Ok(known)
}

// The set is filled, unless it is already.
fn know<'m>(
    alloc: Global,
    known: &mut BTreeSet<&'m str>,
    bins: &[&'m str],
) -> Result<(), AllocError>
    requires { MayKnow known.old (texts_now bins.now) }
    ensures { OnOk result (Knows known.new (texts_now bins.now)) }
{
    if known.is_empty() {
        *known = set_of(alloc, bins)?;
    }
    Ok(())
}

// The binary is put into the set; the answer says whether it wasn't there.
fn add_known<'m>(known: &mut BTreeSet<&'m str>, bin: &'m str) -> Result<bool, AllocError>
    ensures is_new { IfOk result (λ is_new. is_new ≡ not (set_has known.old bin.now)) }
    ensures added { OnOk result ((x : Text) → set_has known.new x
        ≡ (set_has known.old x || bytes_eq x bin.now)) }
{
    Ok(known.insert(bin)?)
}

// The binary is put at the end, unless it is there. A set says whether it is, since a feature may
// come to have thousands.
fn put_bin<'m>(
    own: &mut Vec<&'m str>,
    known: &mut BTreeSet<&'m str>,
    bin: &'m str,
) -> Result<(), AllocError>
    requires { Knows known.old (texts_now own.old.items) }
    ensures put { OnOk result (texts_now own.new.items
        ≡ put_each (texts_now own.old.items) (bin.now ∷ [])) }
    ensures known { OnOk result (Knows known.new (texts_now own.new.items)) }
{
    if add_known(known, bin)? {
        own.push(bin)?;
    }
    Ok(())
}

// Each binary is put at the end, unless it is there.
fn put_bins<'m>(
    own: &mut Vec<&'m str>,
    known: &mut BTreeSet<&'m str>,
    bins: &[&'m str],
) -> Result<(), AllocError>
    requires { Knows known.old (texts_now own.old.items) }
    ensures put { OnOk result (texts_now own.new.items
        ≡ put_each (texts_now own.old.items) (texts_now bins.now)) }
    ensures known { OnOk result (Knows known.new (texts_now own.new.items)) }
{
    for bin in bins {
        put_bin(own, known, *bin)?;
    }
    Ok(())
}

// The binaries are put into the list of the feature in this place.
fn put_at<'m>(
    alloc: Global,
    features: &mut Vec<Feature<'m>>,
    known: &mut Vec<BTreeSet<&'m str>>,
    at: Node,
    bins: &[&'m str],
) -> Result<(), AllocError>
    requires at { at < length features.old.items }
    requires known { AreKnown known.old.items features.old.items }
    ensures put { OnOk result
        (Puts (λ y. y ≡ at) (texts_now bins.now) features.old.items features.new.items) }
    ensures known { OnOk result (AreKnown known.new.items features.new.items) }
{
    let feature = &mut features[at.place()];
    let known = &mut known[at.place()];
    know(alloc, known, feature.required_by_bins.as_slice())?;
    put_bins(&mut feature.required_by_bins, known, bins)
}

// The binaries are put into the lists of the features that the row names; it may name what
// is no feature, too.
fn put_along<'m>(
    alloc: Global,
    features: &mut Vec<Feature<'m>>,
    known: &mut Vec<BTreeSet<&'m str>>,
    row: &[Node],
    bins: &[&'m str],
) -> Result<(), AllocError>
    requires { AreKnown known.old.items features.old.items }
    ensures put { OnOk result
        (Puts (Among row.now) (texts_now bins.now) features.old.items features.new.items) }
    ensures known { OnOk result (AreKnown known.new.items features.new.items) }
{
    for at in row {
        if at.place() < features.len() {
            put_at(alloc, features, known, *at, bins)?;
        }
    }
    Ok(())
}

// The feature in place r passes its first ten binaries on along the row.
fn pass_from<'m>(
    alloc: Global,
    features: &mut Vec<Feature<'m>>,
    known: &mut Vec<BTreeSet<&'m str>>,
    r: Node,
    row: &[Node],
) -> Result<(), AllocError>
    requires r { r < length features.old.items }
    requires known { AreKnown known.old.items features.old.items }
    ensures put { OnOk result (Puts (Among row.now)
        (take 10 (bins_of features.old.items r)) features.old.items features.new.items) }
    ensures known { OnOk result (AreKnown known.new.items features.new.items) }
{
    let bins = first_ten(alloc, features[r.place()].required_by_bins.as_slice())?;
    if bins.is_empty() {
        return Ok(());
    }
    put_along(alloc, features, known, row, bins.as_slice())
}

// Whether the feature is removed and has a binary.
fn passes_any(feature: &Feature<'_>, is_removed: bool) -> bool
    ensures { result
        ≡ (is_removed && not (nat_eq (length feature.now.required_by_bins.items) 0)) }
{
    is_removed && !feature.required_by_bins.is_empty()
}

// Whether a removed feature has a binary.
fn have_bins(features: &[Feature<'_>], flags: &[bool]) -> bool
    requires { length features.now ≤ length flags.now }
    ensures { result ≡ false → (r : ℕ) → r < length features.now → IsWanted flags.now true r
        → bins_of features.now r ≡ [] }
{
    features
        .iter()
        .zip(flags)
        .any(|(feature, is_removed)| passes_any(feature, *is_removed))
}

/// Removed features pass their binaries on to those that their redirects name, in the order of
/// their places: at its turn each its first ten.
///
/// A kept feature passes nothing on. It fails only when out of memory.
pub(crate) fn pass_bins<'m>(
    alloc: Global,
    features: &mut Vec<Feature<'m>>,
    redirects: &Rows,
    flags: &[bool],
) -> Result<(), AllocError>
    requires redirects { length redirects.now ≡ length features.old.items }
    requires flags { length features.old.items ≤ length flags.now }
    ensures others { OnOk result (AreSameButBins features.old.items features.new.items) }
    ensures bins { OnOk result ((y : ℕ) → y < length features.old.items
        → bins_of features.new.items y ≡ passed_below redirects.now flags.now
        (length features.old.items) (bins_of features.old.items) y) }
{
    // Mostly none has a binary: then no set is made.
    if !have_bins(features.as_slice(), flags) {
        return Ok(());
    }
    let mut known = known_bins(alloc, features.as_slice())?;
    let size = features.len();
    for r in 0..size {
        if flags[r] {
            let at = Node::at(r);
            pass_from(alloc, features, &mut known, at, redirects.row(at))?;
        }
    }
    Ok(())
}
