//! Places of folders: absolute paths with no `.` and no `..` in them.
ghost use Rattle.std.specs.Prelude.{◌≡◌, IfOk, map, string_bytes};
ghost use Rattle.cargo_toml_audit.specs.Places.{begins_at, can_go_back, ends_in_name, excluded_by};
ghost use Rattle.cargo_toml_audit.specs.Places.{is_rooted, lies_in, lies_in_some, manifest_path};
ghost use Rattle.cargo_toml_audit.specs.Places.{normalized, or_dot, outer_paths, pieces, place_of};
ghost use Rattle.cargo_toml_audit.specs.Places.{with_names};

use cargo_toml::Workspace;
use cargo_toml_lint::AllocResult;
use cargo_toml_parts::paths::{ancestors, join};
use std::alloc::Global;

/// Whether a path begins where all paths do: at the root.
fn is_rooted(path: &str) -> bool
    ensures { result ≡ is_rooted path.now }
{
    path.starts_with('/')
}

/// Where a path begins: where all paths do, or in this folder.
pub fn begins_at<'a>(folder: &'a str, path: &str) -> &'a str
    ensures { result.now ≡ begins_at folder.now path.now }
{
    if is_rooted(path) { "/" } else { folder }
}

/// What stands between the slashes of a path.
pub fn pieces<'a>(alloc: Global, path: &'a str) -> AllocResult<Vec<&'a str>>
    ensures { IfOk result (λ names. map (λ t. t.now) names.items ≡ pieces path.now) }
{
    path.split('/').collect(alloc)
}

/// The path with no `.` in it, and with `..` at its front alone, and not at the root, unless each
/// is to stay as it is written. The folder itself is `.`.
pub fn normalized(alloc: Global, path: &str, keeps_up: bool) -> AllocResult<String>
    ensures { IfOk result (λ text. string_bytes text ≡ normalized keeps_up path.now) }
{
    let mut names = Vec::new(alloc);
    for name in pieces(alloc, path)?.as_slice() {
        if name.is_empty() || *name == "." {
            continue;
        }
        if (*name == "..") & !keeps_up && can_go_back(path, names.as_slice()) {
            names.pop();
        } else {
            names.push(*name)?;
        }
    }
    with_names(alloc, path, names.as_slice())
}

/// Whether `..` behind these names of a path takes back the last one, or is at the root, and leads
/// nowhere.
fn can_go_back(path: &str, names: &[&str]) -> bool
    ensures { result ≡ can_go_back path.now (map (λ t. t.now) names.now) }
{
    is_rooted(path) || ends_in_name(names)
}

/// Whether the last name can be taken back.
fn ends_in_name(names: &[&str]) -> bool
    ensures { result ≡ ends_in_name (map (λ t. t.now) names.now) }
{
    !names.is_empty() && names[names.len() - 1] != ".."
}

/// The path that begins as this one and has these names, or `.` where that is nothing.
#[tactic(auto, using(crate::proofs::Texts::join_mapped))]
fn with_names(alloc: Global, path: &str, names: &[&str]) -> AllocResult<String>
    ensures { IfOk result
        (λ text. string_bytes text ≡ with_names path.now (map (λ t. t.now) names.now)) }
{
    let mut whole = String::from_str(alloc, begins_at("", path))?;
    let joined = names.join(alloc, "/")?;
    whole.push_str(joined.as_str())?;
    or_dot(alloc, whole)
}

/// The path, or `.` where there is none.
fn or_dot(alloc: Global, path: String) -> AllocResult<String>
    ensures { IfOk result (λ text. string_bytes text ≡ or_dot (string_bytes path)) }
{
    if path.is_empty() {
        return String::from_str(alloc, ".");
    }
    Ok(path)
}

/// The place to which a path leads that is written in a folder.
pub fn place_of(alloc: Global, folder: &str, path: &str) -> AllocResult<String>
    ensures { IfOk result (λ place. string_bytes place ≡ place_of folder.now path.now) }
{
    let whole = join(alloc, folder, path)?;
    normalized(alloc, whole.as_str(), false)
}

/// The path of the manifest in a folder.
pub fn manifest_path(alloc: Global, folder: &str) -> AllocResult<String>
    ensures { IfOk result (λ path. string_bytes path ≡ manifest_path folder.now) }
{
    join(alloc, folder, "Cargo.toml")
}

/// Whether a place is another, or lies in it.
pub fn lies_in(alloc: Global, place: &str, outer: &str) -> AllocResult<bool>
    ensures { IfOk result (λ b. b ≡ lies_in place.now outer.now) }
{
    if place == outer {
        return Ok(true);
    }
    let front = join(alloc, outer, "")?;
    Ok(place.as_bytes().starts_with(front.as_str().as_bytes()))
}

/// What places are compared with to tell whether a workspace excludes them: paths from its folder,
/// in which each `..` stays, as Cargo has it.
#[derive(Drop)]
pub struct Exclusion {
    /// Those of the entries of `exclude`.
    pub excluded: Vec<String>,
    /// Those of the entries of `members`.
    pub members: Vec<String>,
}

impl Exclusion {
    /// That of a workspace in `root`.
    pub fn of(alloc: Global, root: &str, workspace: &Workspace) -> AllocResult<Exclusion>
        ensures excluded { IfOk result (λ all. map string_bytes all.excluded.items
            ≡ outer_paths root.now (map string_bytes workspace.now.exclude.items)) }
        ensures members { IfOk result (λ all. map string_bytes all.members.items
            ≡ outer_paths root.now (map string_bytes workspace.now.members.items)) }
    {
        let excluded = outer_paths(alloc, root, workspace.exclude.as_slice())?;
        let members = outer_paths(alloc, root, workspace.members.as_slice())?;
        Ok(Exclusion { excluded, members })
    }

    /// Whether it excludes what lies at a place. What `members` lists wins, as it is written.
    pub fn excludes(&self, alloc: Global, place: &str) -> AllocResult<bool>
        ensures { IfOk result (λ b. b ≡ excluded_by (map string_bytes self.now.excluded.items)
            (map string_bytes self.now.members.items) place.now) }
    {
        let path = manifest_path(alloc, place)?;
        if !lies_in_some(alloc, path.as_str(), self.excluded.as_slice())? {
            return Ok(false);
        }
        Ok(!lies_in_some(alloc, path.as_str(), self.members.as_slice())?)
    }
}

/// The paths of the entries of a list in `root`, with each `..` as it is written.
fn outer_paths(alloc: Global, root: &str, entries: &[String]) -> AllocResult<Vec<String>>
    ensures { IfOk result (λ all. map string_bytes all.items
        ≡ outer_paths root.now (map string_bytes entries.now)) }
{
    let mut all = Vec::new(alloc);
    for entry in entries {
        let whole = join(alloc, root, entry.as_str())?;
        all.push(normalized(alloc, whole.as_str(), true)?)?;
    }
    Ok(all)
}

/// Whether a path is one of these, or lies in one.
fn lies_in_some(alloc: Global, path: &str, outers: &[String]) -> AllocResult<bool>
    ensures { IfOk result (λ b. b ≡ lies_in_some path.now (map string_bytes outers.now)) }
{
    for outer in outers {
        if lies_in(alloc, path, outer.as_str())? {
            return Ok(true);
        }
    }
    Ok(false)
}

/// A place as it is seen from a folder, for people. What has no folder in common with it is told by
/// its whole path.
pub fn seen_from(alloc: Global, root: &str, place: &str) -> AllocResult<String> {
    let mut up = String::new(alloc);
    for above in ancestors(root) {
        let outer = above.as_str();
        if matches!(outer, "" | "/") && !up.is_empty() {
            break;
        }
        if place == outer {
            return or_dot(alloc, up);
        }
        let front = join(alloc, outer, "")?;
        if let Some(rest) = place.strip_prefix(front.as_str()) {
            return join(alloc, up.as_str(), rest);
        }
        up = join(alloc, up.as_str(), "..")?;
    }
    String::from_str(alloc, place)
}
