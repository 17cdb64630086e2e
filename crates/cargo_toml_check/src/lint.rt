//! What is amiss with the features of a manifest, with places.
ghost use Rattle.std.specs.Prelude.{◌≡◌, IfErr};
ghost use Rattle.cargo_toml_tools.specs.FromFiles.{IsOfInput};
ghost use Rattle.cargo_toml_check.specs.Judged.{counts, is_odd};

use crate::alone::Step;
use crate::check::{Told, faults_in, no_text, push_place};
use crate::places::{Paths, Place, cut, places};
use cargo_toml::{DepsSet, Edition, Error, Inheritable, Manifest, Product, Value};
use cargo_toml_lint::{AllocResult, Code, Finding, Level};
use cargo_toml_tools::Judging;
use cargo_toml_tools::escape::{Escaped, Format};
use cargo_toml_tools::files::{findings_of, manifest_of};
use cargo_toml_tools::json::put_text;
use serde_json::{Map, Value as Json, put};
use std::alloc::Global;
use std::collections::BTreeMap;
use std::fmt::Write;
use std::random::RandomSource;

/// What a line tells behind its place: the level, the code, the feature, the text and the words.
pub type Cells<'a> = (&'a str, &'a str, &'a str, &'a str, &'a str);

/// What is told, and its place.
pub type Line<'a> = (Cells<'a>, Place);

/// What is passed over: a code, of one feature or of any.
type Allowed<'a> = (&'a str, Option<&'a str>);

/// What is amiss with the features of the manifest in this text of a file, a line each, of JSON
/// where `judging` asks for it, and whether something counts. A manifest that doesn't read has the
/// finding `unreadable` for each part at fault, which always counts. The manifest's own
/// `package.metadata.cargo-toml-tools.allow` is heeded, too. Refused out of memory, or where
/// nothing random can be had.
pub fn lint_lines<R: RandomSource + AllocGlobal>(
    rt: &R,
    file: &str,
    text: &str,
    judging: &Judging<'_>,
) -> Result<(String, bool), Error>
    ensures refused { IfErr result IsOfInput }
{
    match manifest_of(rt.alloc(), text) {
        Ok(held) => readable(rt, file, text, &*held.manifest, judging),
        Err(Error::Memory) => Err(Error::Memory),
        Err(_) => {
            let faults = faults_in(rt.alloc(), text)?;
            Ok((
                unreadable(rt.alloc(), file, faults.as_slice(), judging.json)?,
                true,
            ))
        }
    }
}

fn readable<R: RandomSource + AllocGlobal>(
    rt: &R,
    file: &str,
    text: &str,
    manifest: &Manifest,
    judging: &Judging<'_>,
) -> Result<(String, bool), Error>
    ensures refused { IfErr result IsOfInput }
{
    let alloc = rt.alloc();
    let mut kept = findings_of(rt, manifest)?;
    let told = lines_of(alloc, text, manifest, judging.allowed.as_slice(), &mut kept)?;
    let mut lines = String::new(alloc);
    for (cells, place) in &told {
        push_line(&mut lines, alloc, file, *place, *cells, judging.json)?;
    }
    // no two findings are alike: further lines are of tables, as errors or warnings
    let is_odd = is_odd(kept.as_slice(), judging.denies_hints);
    Ok((lines, is_odd || told.len() > kept.len()))
}

/// What is told of the manifest in a text, each once, in order: these findings, of which those are
/// kept that neither a text passes over nor the manifest itself, and the tables with other names.
/// The one refusal is out of memory.
pub fn lines_of<'m>(
    alloc: Global,
    text: &str,
    manifest: &'m Manifest,
    passed: &[&'m str],
    findings: &mut Vec<Finding<'m>>,
) -> AllocResult<Vec<Line<'m>>> {
    let allowed = allowed(alloc, manifest, passed)?;
    let allowed = allowed.as_slice();
    findings.retain(|finding| !is_allowed(allowed, finding.code.name(), finding.feature));
    told(alloc, text, manifest, allowed, findings.as_slice())
}

/// What these texts pass over, and those that the manifest itself has for it, in order.
fn allowed<'m>(
    alloc: Global,
    manifest: &'m Manifest,
    allowed: &[&'m str],
) -> AllocResult<Vec<Allowed<'m>>> {
    let mut texts = Vec::from_slice(alloc, allowed)?;
    if let Some(Value::Array(items)) = own_allow(manifest) {
        texts.extend(items.iter().filter_map(|item| item.as_str()))?;
    }
    let mut all = Vec::new(alloc);
    for text in texts {
        all.push(match text.split_once('=') {
            Some((code, feature)) => (code, Some(feature)),
            None => (text, None),
        })?;
    }
    all.sort_unstable();
    Ok(all)
}

/// Whether one of these findings is an error or a warning, or a hint where hints are denied. It is
/// asked of just those that are told.
pub fn is_odd(findings: &[Finding<'_>], denies_hints: bool) -> bool
    ensures { result ≡ is_odd denies_hints findings.now }
{
    findings
        .iter()
        .any(|finding| counts(finding.code.level(), denies_hints))
}

fn counts(level: Level, denies_hints: bool) -> bool
    ensures { result ≡ counts denies_hints level }
{
    match level {
        Level::Error | Level::Warning => true,
        Level::Hint => denies_hints,
    }
}

/// What the manifest itself wants to have passed over.
fn own_allow(manifest: &Manifest) -> Option<&Value> {
    let metadata = manifest.package.as_ref()?.metadata.as_ref()?;
    metadata.get("cargo-toml-tools")?.get("allow")
}

/// Whether a code is passed over, of any feature or of this one.
fn is_allowed<'a>(allowed: &[Allowed<'a>], code: &'a str, feature: &'a str) -> bool {
    allowed.binary_search(&(code, None)).is_ok()
        || allowed.binary_search(&(code, Some(feature))).is_ok()
}

/// What a finding is of.
#[derive(Clone, Copy, PartialEq, Eq, PartialOrd, Ord)]
enum Owner {
    Feature,
    Dependency,
    /// An optional dependency.
    Optional,
    /// An optional dev-dependency.
    Dev,
    Product,
}

/// What a finding may stand at, the likeliest first: the text, if it is of one, in the list of an
/// owner, or an owner itself.
fn keys_of<'m>(finding: &Finding<'m>) -> [(Owner, Option<&'m str>); 3] {
    let text = Some(finding.text);
    let (owner, text) = match finding.code {
        Code::BadText | Code::NamesItself | Code::NotOptional | Code::Reserved | Code::Unknown => {
            (Owner::Feature, text)
        }
        Code::BadRequest => (Owner::Dependency, text),
        Code::BadRequired | Code::Missing => (Owner::Product, text),
        Code::OptionalDev => (Owner::Dev, None),
        Code::Implied => (Owner::Optional, None),
        // where none is listed, its dependency stands for it
        _ => (Owner::Feature, None),
    };
    [(owner, text), (owner, None), (Owner::Dependency, None)]
}

/// What these findings and the tables with other names tell, in order, each with its place.
fn told<'m>(
    alloc: Global,
    text: &str,
    manifest: &'m Manifest,
    allowed: &[Allowed<'m>],
    findings: &[Finding<'m>],
) -> AllocResult<Vec<Line<'m>>> {
    let mut keys = Keys {
        paths: Paths::new(alloc),
        owners: BTreeMap::new(alloc),
        wanted: BTreeMap::new(alloc),
        others: Vec::new(alloc),
    };
    for finding in findings {
        for (owner, text) in &keys_of(finding) {
            keys.want((*owner, finding.feature), *text)?;
        }
    }
    keys.add_all(manifest)?;
    let found = places(alloc, text, &keys.paths)?;
    let mut told = Vec::new(alloc);
    for finding in findings {
        let code = finding.code;
        let (level, words) = (code.level().name(), code.words());
        let cells: Cells<'m> = (level, code.name(), finding.feature, finding.text, words);
        told.push((cells, keys.place_of(&found, finding)))?;
    }
    for (name, path) in &keys.others {
        if let Some(place) = found.get(path) {
            if !is_allowed(allowed, "other-name", *name) {
                told.push((other_cells(manifest, *name), *place))?;
            }
        }
    }
    told.sort_unstable();
    told.dedup_by_key(|line| line.0);
    Ok(told)
}

/// What is told of the table with another name in a manifest.
fn other_cells<'m>(manifest: &Manifest, name: &'m str) -> Cells<'m> {
    let is_refused = states_2024(manifest);
    let level = if is_refused { "error" } else { "warning" };
    let words = "is a table that Cargo reads up to edition 2021 alone";
    (level, "other-name", name, "", words)
}

/// Whether a manifest states edition 2024 itself. What it inherits isn't known: it is read alone.
fn states_2024(manifest: &Manifest) -> bool {
    let Some(package) = &manifest.package else {
        return false;
    };
    matches!(&package.edition, Inheritable::Set(Edition::E2024))
}

/// The keys that findings may stand at.
#[derive(Drop)]
struct Keys<'m> {
    paths: Paths,
    /// The owners that are wanted, each with a number.
    owners: BTreeMap<(Owner, &'m str), usize>,
    /// Of each wanted owner, or text in its list, two paths that it may have, or 0 in place of one.
    wanted: BTreeMap<(usize, Option<&'m str>), (usize, usize)>,
    /// The paths of tables with other names, which need not be there.
    others: Vec<(&'static str, usize)>,
}

impl<'m> Keys<'m> {
    fn want(&mut self, owner: (Owner, &'m str), text: Option<&'m str>) -> AllocResult<()> {
        let next = self.owners.len();
        let number = *self.owners.entry(owner)?.or_insert(next);
        self.wanted.insert((number, text), (0, 0))?;
        Ok(())
    }

    fn add_all(&mut self, manifest: &'m Manifest) -> AllocResult<()> {
        let path = self.paths.step(0, Step::Key("features"))?;
        for (name, texts) in &manifest.features {
            let name = name.as_str();
            let at = (path, Step::Key(name));
            self.add((Owner::Feature, name), at, "enables", texts.as_slice())?;
        }
        let (build, dev) = (&manifest.build_dependencies, &manifest.dev_dependencies);
        self.add_tables(0, [&manifest.dependencies, build, dev])?;
        let path = self.paths.step(0, Step::Key("target"))?;
        for (name, target) in &manifest.target {
            let path = self.paths.step(path, Step::Key(name.as_str()))?;
            let (build, dev) = (&target.build_dependencies, &target.dev_dependencies);
            self.add_tables(path, [&target.dependencies, build, dev])?;
        }
        self.add_products("bin", manifest.bin.as_slice())?;
        self.add_products("example", manifest.example.as_slice())?;
        self.add_products("test", manifest.test.as_slice())?;
        self.add_products("bench", manifest.bench.as_slice())
    }

    fn add_tables(&mut self, above: usize, tables: [&'m DepsSet; 3]) -> AllocResult<()> {
        // Cargo reads these up to edition 2021 alone
        for name in &["build_dependencies", "dev_dependencies"] {
            let path = self.paths.step(above, Step::Key(*name))?;
            self.others.push((*name, path))?;
        }
        let kinds = ["dependencies", "build-dependencies", "dev-dependencies"];
        for (kind, table) in kinds.iter().zip(tables.iter()) {
            let path = self.paths.step(above, Step::Key(*kind))?;
            for (key, dependency) in *table {
                let key = key.as_str();
                let at = (path, Step::Key(key));
                let texts = dependency.req_features();
                self.add((Owner::Dependency, key), at, "features", texts)?;
                if dependency.optional() {
                    self.add((Owner::Optional, key), at, "features", &[])?;
                    if *kind == "dev-dependencies" {
                        self.add((Owner::Dev, key), at, "features", &[])?;
                    }
                }
            }
        }
        Ok(())
    }

    fn add_products(&mut self, kind: &'static str, products: &'m [Product]) -> AllocResult<()> {
        let path = self.paths.step(0, Step::Key(kind))?;
        for (index, product) in products.iter().enumerate() {
            let name = product.name.as_deref().unwrap_or("");
            let texts = product.required_features.as_slice();
            let at = (path, Step::Item(index));
            self.add((Owner::Product, name), at, "required-features", texts)?;
        }
        Ok(())
    }

    /// Adds the path of an owner, and those of the texts in its list, where they are wanted and
    /// have none yet. The list stands where the owner does, or there at this key.
    fn add(
        &mut self,
        owner: (Owner, &'m str),
        at: (usize, Step<'m>),
        list: &'static str,
        texts: &'m [String],
    ) -> AllocResult<()> {
        let Some(owner) = self.owners.get(&owner).copied() else {
            return Ok(());
        };
        let path = self.paths.step(at.0, at.1)?;
        let list = self.paths.step(path, Step::Key(list))?;
        let own = (owner, None);
        if self.lacks(&own) {
            self.wanted.insert(own, (path, 0))?;
        }
        for (index, text) in texts.iter().enumerate() {
            let key = (owner, Some(text.as_str()));
            if self.lacks(&key) {
                let item = Step::Item(index);
                let paths = (self.paths.step(path, item)?, self.paths.step(list, item)?);
                self.wanted.insert(key, paths)?;
            }
        }
        Ok(())
    }

    fn lacks(&self, key: &(usize, Option<&'m str>)) -> bool {
        self.wanted.get(key).copied() == Some((0, 0))
    }

    /// The place of a finding, where the text has these.
    fn place_of(&self, found: &BTreeMap<usize, Place>, finding: &Finding<'m>) -> Place {
        for (owner, text) in &keys_of(finding) {
            if let Some(owner) = self.owners.get(&(*owner, finding.feature)) {
                let paths = self.wanted.get(&(*owner, *text)).copied();
                let (first, other) = paths.unwrap_or((0, 0));
                if let Some(place) = found.get(&first).or(found.get(&other)) {
                    return *place;
                }
            }
        }
        (1, 1)
    }
}

/// The line of a file whose bytes aren't UTF-8.
pub fn no_text_line(alloc: Global, file: &str, judging: &Judging<'_>) -> AllocResult<String> {
    unreadable(alloc, file, &[no_text(alloc)?], judging.json)
}

fn unreadable(alloc: Global, file: &str, faults: &[Told], json: bool) -> AllocResult<String> {
    let mut lines = String::new(alloc);
    for told in faults {
        let words = told.words.as_str().trim_end();
        let cells = ("error", "unreadable", told.key.as_str(), "", words);
        push_line(&mut lines, alloc, file, told.place, cells, json)?;
    }
    Ok(lines)
}

/// Adds a line `FILE:LINE:COLUMN: LEVEL | CODE | FEATURE | TEXT | words`, or the same as JSON.
fn push_line(
    lines: &mut String,
    alloc: Global,
    file: &str,
    place: Place,
    cells: Cells<'_>,
    json: bool,
) -> AllocResult<()> {
    let (level, code, feature, text, words) = cells;
    let (feature, text) = (cut(alloc, feature)?, cut(alloc, text)?);
    let (feature, text) = (feature.as_str(), text.as_str());
    if json {
        let mut object = Map::new(alloc);
        put_text(alloc, &mut object, "file", Some(file))?;
        put(&mut object, alloc, "line", Json::from(place.0))?;
        put(&mut object, alloc, "column", Json::from(place.1))?;
        put_text(alloc, &mut object, "level", Some(level))?;
        put_text(alloc, &mut object, "code", Some(code))?;
        put_text(alloc, &mut object, "feature", Some(feature))?;
        put_text(alloc, &mut object, "text", Some(text))?;
        put_text(alloc, &mut object, "words", Some(words))?;
        lines.push_str(Json::from(object).to_string(alloc)?.as_str())?;
    } else {
        push_place(lines, file, place)?;
        lines.push_str(level)?;
        for cell in &[code, feature, text, words] {
            write!(lines, " | {}", Escaped(*cell, Format::Line))?;
        }
    }
    lines.push_str("\n")
}
