//! The files around a manifest, as an implementor of a trait answers for them.
ghost use Rattle.std.specs.Prelude.{◌≡◌, ◌⊎◌, ℕ, List, Bool, true, false, not, ◌&&◌, Option, IfOk};
ghost use Rattle.std.specs.Prelude.{Ok, Err, IfErr, string_bytes};
ghost use Rattle.std.specs.Option.{option_copied};
ghost use Rattle.toml.specs.View.{view};
ghost use Rattle.cargo_toml_parts.specs.declared.error.Error.{Memory};
ghost use Rattle.cargo_toml_parts.specs.Answers.{Gives};
ghost use Rattle.cargo_toml_parts.specs.FaultValues.{Fault, fault_of, workspace};
ghost use Rattle.cargo_toml_parts.specs.FaultValues.{workspace_integrity};
ghost use Rattle.cargo_toml_parts.specs.Wrapping.{wrap};
ghost use Rattle.cargo_toml_discovery.specs.Folders.{AnswersNames, RefusesBy};
ghost use Rattle.cargo_toml_discovery.specs.Told.{Told, open_path};
ghost use Rattle.cargo_toml_manifest.specs.Choosing.{MayFind};
ghost use Rattle.cargo_toml_manifest.specs.Manifests.{manifest_meaning};
ghost use Rattle.cargo_toml_manifest.specs.Refusing.{MayHold, MayLose, ReadsBy};
ghost use Rattle.cargo_toml_manifest.specs.Roots.{IsFromSlice, IsRootAt, not_a_workspace};
ghost use Rattle.cargo_toml_manifest.specs.Told.{ToldRoot, open_root, heard};
ghost use Rattle.cargo_toml_manifest.specs.Told.{ReadsRoot, AnswersRoot};

use crate::manifest::Manifest;
use cargo_toml_parts::Error;
use std::alloc::Global;
use std::collections::HashSet;
use std::io;

/// Which of its calls for a root an implementor of `AbstractFilesystem` writes itself.
pub trait Roots {
    /// Whether it writes `read_root_workspace`.
    const ARE_READ: bool;

    /// Whether it writes one of the two, so that roots can be found. It is true wherever the other
    /// constant is.
    const ARE_FOUND: bool;

    // the same, for clauses
    ghost ARE_READ: { Bool };

    ghost ARE_FOUND: { Bool };
}

/// For an implementor that leaves out both calls for a root.
pub struct NoRoot;

impl Roots for NoRoot {
    const ARE_READ: bool = false;

    const ARE_FOUND: bool = false;

    ghost ARE_READ = { false };

    ghost ARE_FOUND = { false };
}

/// For an implementor that writes `read_root_workspace`.
pub struct OwnRoot;

impl Roots for OwnRoot {
    const ARE_READ: bool = true;

    const ARE_FOUND: bool = true;

    ghost ARE_READ = { true };

    ghost ARE_FOUND = { true };
}

/// For an implementor that writes `parse_root_workspace`, and leaves `read_root_workspace` out.
pub struct ParsedRoot;

impl Roots for ParsedRoot {
    const ARE_READ: bool = false;

    const ARE_FOUND: bool = true;

    ghost ARE_READ = { false };

    ghost ARE_FOUND = { true };
}

/// The files around a manifest: what a folder holds, and where the root of the workspace is.
///
/// For proofs alone, an implementor may state what it answers for each path and each hint; by
/// default it states nothing. Its calls then answer what it states, or `Memory`. In the same way it
/// may state which faults its calls may give, and which roots may be found where none is stated; by
/// default these are all. Completion then inherits from no other root that is looked up, and is
/// refused for no other fault of its calls. With `NoRoot` each root that is asked for may be
/// refused as `Unsupported`, with the hint.
pub trait AbstractFilesystem {
    /// `OwnRoot` where `read_root_workspace` is written, `ParsedRoot` where `parse_root_workspace`
    /// alone is, and `NoRoot` where both are left out. With `NoRoot` a `root_for` that names a root
    /// states nothing; one that says there is none counts.
    type Roots: Roots;

    /// What is stated of a path, as seen from the folder of the manifest.
    ghost names_at: { Self → List ℕ → Told } = { λ _ _. open_path };

    /// What is stated of the workspace that a hint leads to.
    ghost root_for: { Self → Option (List ℕ) → ToldRoot } = { λ _ _. open_root };

    /// Which roots may be found for a hint: the manifest of one, and its path.
    ghost may_find: { Self → MayFind } = { λ _ _ _ _. Unit {0} };

    /// Which faults may stand in place of the names at a path, as seen from the
    /// folder of the manifest.
    ghost may_refuse: { Self → List ℕ → Fault → Type 0 } = { λ _ _ _. Unit {0} };

    /// Which faults may stand in place of the root that a hint leads to, as
    /// `parse_root_workspace` gives them.
    ghost may_refuse_root: { Self → Option (List ℕ) → Fault → Type 0 } = { λ _ _ _. Unit {0} };

    /// The names in a folder, whose path is as seen from the folder of the manifest; the empty
    /// path is that folder.
    ///
    /// A path where nothing is, or no folder, is `Error::Io` of the kind `NotFound`. Another fault
    /// of reading it is an `Error::Io` of its kind, and out of memory `Error::Memory`. An
    /// implementor may refuse with a fault of its own, too.
    fn file_names_in(&self, alloc: Global, rel_path: &str) -> Result<HashSet<String>, Error>
        ensures answers { AnswersNames (names_at self.now rel_path.now) result }
        ensures refused { RefusesBy (may_refuse self.now rel_path.now) result };

    /// The bytes of the `Cargo.toml` of the workspace's root, and their path.
    ///
    /// The path should be absolute. Its folder becomes the base of what is inherited, as the path
    /// of a readme, and nobody could know where a relative base begins.
    ///
    /// The hint is that of `parse_root_workspace`. Where this call is left out, it is refused with
    /// `Error::Io` of the kind `Unsupported`. (An implementor that leaves it out and yet says
    /// `OwnRoot` gets `Error::Memory`.)
    fn read_root_workspace(
        &self,
        _alloc: Global,
        _hint: Option<&str>,
    ) -> Result<(Vec<u8>, String), Error>
        ensures answers { ReadsRoot
            (heard Self.Roots.ARE_READ (root_for self.now (option_copied _hint.entry))) result }
        ensures refused { ReadsBy Self.Roots.ARE_READ (may_refuse_root self.now)
            (option_copied _hint.entry) result }
        ensures found { IfOk result (λ read.
            MayHold (may_find self.now (option_copied _hint.entry))
            read.0.items (string_bytes read.1)) }
    {
        if Self::Roots::ARE_READ {
            return Err(Error::Memory);
        }
        let fault = io::Error::new(
            io::ErrorKind::Unsupported,
            "read_root_workspace is not implemented",
        );
        Err(Error::Io(fault))
    }

    /// The manifest of the workspace's root, which has a workspace table, and its path.
    ///
    /// The hint is the key `workspace` of the package: the path of the root's folder as seen from
    /// the manifest's, such as `../`, without `Cargo.toml`. `None` means that the package does not
    /// have that key: the root is then to be looked for in the folders above the manifest's. The
    /// path in the answer is that of the root's folder or of its `Cargo.toml`. It should be
    /// absolute, as that of `read_root_workspace`.
    ///
    /// Where this call is left out, it is what `read_root_workspace` and `Manifest::from_slice`
    /// answer. (An implementor that leaves it out and yet says `ParsedRoot` gets `Error::Memory`.)
    /// A fault of reading is then reported as `Error::Workspace` with the hint as its path, unless
    /// it is one already. A fault of the bytes, and `Error::WorkspaceIntegrity` for a manifest
    /// without a workspace table, are reported in the same way, with the path of the bytes. Out of
    /// memory is `Error::Memory` as ever.
    fn parse_root_workspace(
        &self,
        alloc: Global,
        hint: Option<&str>,
    ) -> Result<(Manifest, String), Error>
        ensures answers { AnswersRoot
            (heard Self.Roots.ARE_FOUND (root_for self.now (option_copied hint.entry))) result }
        ensures refused { RefusesBy (MayLose Self.Roots.ARE_FOUND (may_refuse_root self.now)
            (option_copied hint.entry)) result }
        ensures found { IfOk result (λ root. may_find self.now (option_copied hint.entry)
            (manifest_meaning view root.0) (string_bytes root.1)) }
    {
        if parses_alone::<Self::Roots>() {
            return Err(Error::Memory);
        }
        match self.read_root_workspace(alloc, hint) {
            Ok((bytes, path)) => root_at(alloc, bytes, path),
            Err(fault) => Err(wrapped(alloc, fault, hint)),
        }
    }
}

// Whether an implementor writes `parse_root_workspace` alone.
fn parses_alone<R: Roots>() -> bool
    ensures { result ≡ (R.ARE_FOUND && not R.ARE_READ) }
{
    R::ARE_FOUND && !R::ARE_READ
}

impl<T: AbstractFilesystem> AbstractFilesystem for &T {
    type Roots = T::Roots;

    ghost names_at = { λ fs path. T.names_at fs.now path };

    ghost root_for = { λ fs hint. T.root_for fs.now hint };

    ghost may_find = { λ fs hint. T.may_find fs.now hint };

    ghost may_refuse = { λ fs path. T.may_refuse fs.now path };

    ghost may_refuse_root = { λ fs hint. T.may_refuse_root fs.now hint };

    fn file_names_in(&self, alloc: Global, rel_path: &str) -> Result<HashSet<String>, Error> {
        (**self).file_names_in(alloc, rel_path)
    }

    fn read_root_workspace(
        &self,
        alloc: Global,
        hint: Option<&str>,
    ) -> Result<(Vec<u8>, String), Error> {
        (**self).read_root_workspace(alloc, hint)
    }

    fn parse_root_workspace(
        &self,
        alloc: Global,
        hint: Option<&str>,
    ) -> Result<(Manifest, String), Error> {
        (**self).parse_root_workspace(alloc, hint)
    }
}

// The manifest that these bytes spell, on the heap: it is wide, and on the stack the manifest that
// is being completed is there already.
pub(crate) fn boxed(alloc: Global, bytes: &[u8]) -> Result<Box<Manifest>, Error>
    ensures read { IfOk result (λ manifest. IsFromSlice bytes.now (Ok manifest.value)) }
    ensures refused { IfErr result (λ e. (e ≡ Memory) ⊎ IsFromSlice bytes.now (Err e)) }
{
    Ok(Box::new(alloc, Manifest::from_slice(alloc, bytes)?)?)
}

// The root of these bytes, which were read at this path. A fault of the bytes, and
// `Error::WorkspaceIntegrity` for a manifest without a workspace table, become faults of a
// workspace with that path.
fn root_at(alloc: Global, bytes: Vec<u8>, path: String) -> Result<(Manifest, String), Error>
    ensures { IsRootAt bytes.items (string_bytes path) result }
{
    let manifest = match boxed(alloc, bytes.as_slice()) {
        Ok(manifest) => manifest,
        Err(fault) => return Err(wrapped(alloc, fault, Some(path.as_str()))),
    };
    if manifest.workspace.is_none() {
        let fault = not_a_workspace(alloc)?;
        return Err(wrapped(alloc, fault, Some(path.as_str())));
    }
    Ok((Box::into_inner(manifest), path))
}

/// The fault as one of a workspace at this path, where one is known. A fault that is one of a
/// workspace already, and `Error::Memory`, stay as they are. Where there is no memory for it, the
/// answer is `Error::Memory`.
pub fn wrapped(alloc: Global, fault: Error, path: Option<&str>) -> Error
    ensures { (result ≡ Memory)
        ⊎ (fault_of result ≡ wrap (option_copied path.entry) (fault_of fault)) }
{
    match fault {
        Error::Workspace(_) | Error::Memory => fault,
        _ => match in_workspace(alloc, fault, path) {
            Ok(made) | Err(made) => made,
        },
    }
}

// The fault as one of a workspace, whatever it is.
fn in_workspace(alloc: Global, fault: Error, path: Option<&str>) -> Result<Error, Error>
    ensures made { IfOk result
        (λ e. fault_of e ≡ workspace (fault_of fault) (option_copied path.entry)) }
    ensures refused { IfErr result (λ e. e ≡ Memory) }
{
    let path = match path {
        Some(path) => Some(String::from_str(alloc, path)?),
        None => None,
    };
    Ok(Error::Workspace(Box::new(alloc, (fault, path))?))
}

// The text is the original's, its misspelling included.
fn not_a_workspace(alloc: Global) -> Result<Error, Error>
    ensures { Gives fault_of result (Ok (workspace_integrity not_a_workspace)) }
{
    let text = String::from_str(
        alloc,
        "Not a Workspace.\nUse package.workspace to select a differnt path, or implement \
            cargo_toml::AbstractFilesystem::parse_root_workspace",
    )?;
    Ok(Error::WorkspaceIntegrity(text))
}
