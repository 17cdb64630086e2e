//! Completing a manifest, and resolving the features that it then has.
ghost use Rattle.std.specs.Prelude.{◌≡◌, Err, IfErr, IfOk, IfSome, IsSome, OnOk, option_map};
ghost use Rattle.std.specs.Borrow.{sem};
ghost use Rattle.cargo_toml_parts.specs.declared.error.Error.{Memory};
ghost use Rattle.cargo_toml_resolve.specs.Filter.{HasNameFilter};
ghost use Rattle.cargo_toml_manifest.specs.Choosing.{handed_of, roots_of};
ghost use Rattle.cargo_toml_manifest.specs.Completed.{IsCompleted};
ghost use Rattle.cargo_toml_manifest.specs.Completing.{Meets, complete};
ghost use Rattle.cargo_toml_manifest.specs.Manifests.{held};
ghost use Rattle.cargo_toml_manifest.specs.Refusing.{IsRefusedBy, MayLose};
ghost use Rattle.cargo_toml_resolver.specs.Filtered.{filter_of, limit_of};
ghost use Rattle.cargo_toml_resolver.specs.Lent.{IsLentAfter, IsLentAs, IsLentOn};
ghost use Rattle.cargo_toml_resolver.specs.Lent.{IsResolvedAfter, with_lent};
ghost use Rattle.cargo_toml_resolver.specs.Parsed.{IsResolvedFor};

use crate::resolving::{Features, Resolver};
use cargo_toml_manifest::{AbstractFilesystem, Manifest};
use cargo_toml_parts::Error;
use std::alloc::Global;
use std::hash::BuildHasher;

/// Completes a manifest and resolves its features, as [`Resolver::complete_and_parse`], and says
/// what a refusal leaves.
///
/// The manifest comes back where it was completed, and then is as it is lent; where completion was
/// refused, the answer is `None`, and it is as it was. What is resolved, or the fault, is put into
/// `slot`, in place of what was there. A fault after a completion is [`Error::Memory`].
///
/// The filter, if there is one, may be called on every text, and answers each in one way.
pub fn complete_and_parse_into<
    'm,
    M: Drop,
    N,
    F: Fn(&str) -> bool,
    S: BuildHasher + Clone + Drop,
    Fs: AbstractFilesystem + Drop,
>(
    manifest: &'m mut Manifest<M>,
    resolver: &Resolver<'_, F, S>,
    alloc: Global,
    fs: Fs,
    workspace: Option<(&Manifest<N>, &str)>,
    slot: &mut Option<Result<Features<'m, 'm, S>, Error>>,
) -> Option<&'m Manifest<M>>
    requires { HasNameFilter F.Fn (filter_of resolver.now) }
    ensures* left { sem 𝓛 (IsLentOn M.row manifest.entry result) }
    ensures answered { IsSome (with_lent result slot.new) }
    ensures completed { IfSome result
        (λ lent. IsCompleted manifest.old (option_map handed_of workspace.entry)
        (roots_of Fs.Roots.ARE_FOUND (Fs.root_for fs)) (Fs.may_find fs) (Fs.names_at fs)
        lent.now) }
    ensures memory { IfSome result (λ _. IfSome slot.new (λ r. IfErr r (λ e. e ≡ Memory))) }
    ensures resolved { IfSome (with_lent result slot.new) (IsResolvedAfter
        (complete (held manifest.old) (option_map handed_of workspace.entry)
        (roots_of Fs.Roots.ARE_FOUND (Fs.root_for fs)) (Fs.names_at fs))
        (limit_of resolver.now) F.Fn (filter_of resolver.now)) }
    ensures wrapped { IfSome (with_lent result slot.new) (λ r. IfErr r (IsRefusedBy
        (held manifest.old) (option_map handed_of workspace.entry)
        (roots_of Fs.Roots.ARE_FOUND (Fs.root_for fs)) (Fs.may_find fs)
        (MayLose Fs.Roots.ARE_FOUND (Fs.may_refuse_root fs)) (Fs.may_refuse fs))) }
{
    match manifest.complete_from_abstract_filesystem(alloc, fs, workspace) {
        Ok(()) => {}
        Err(fault) => {
            *slot = Some(Err(fault));
            return None;
        }
    }
    let manifest: &'m Manifest<M> = manifest;
    *slot = Some(resolver.parse(alloc, manifest));
    Some(manifest)
}

// The manifest, lent for as long as it was handed over.
fn shared<'m, M>(manifest: &'m mut Manifest<M>) -> &'m Manifest<M>
    ensures* left { sem 𝓛 (IsLentAs M.row manifest.entry result) }
    ensures same { result.now ≡ manifest.old }
{
    let lent: &'m Manifest<M> = manifest;
    lent
}

impl<'config, F: Fn(&str) -> bool, S: BuildHasher + Clone + Drop> Resolver<'config, F, S> {
    /// Completes a manifest as [`Manifest::complete_from_abstract_filesystem`] does, and resolves
    /// the features of the completed manifest as [`Resolver::parse`] does.
    ///
    /// A refusal is that of completion, or [`Error::Memory`]. It leaves the manifest as it was or,
    /// where it is [`Error::Memory`], perhaps completed; a success leaves it as it is lent. A
    /// caller's generated proof learns what is left only from [`complete_and_parse_into`].
    ///
    /// The filter, if there is one, may be called on every text, and answers each in one way.
    pub fn complete_and_parse<'m, M: Drop, N, Fs: AbstractFilesystem + Drop>(
        &self,
        alloc: Global,
        manifest: &'m mut Manifest<M>,
        fs: Fs,
        workspace: Option<(&Manifest<N>, &str)>,
    ) -> Result<(&'m Manifest<M>, Features<'m, 'm, S>), Error>
        requires { HasNameFilter F.Fn (filter_of self.now) }
        ensures* left { sem 𝓛
            (IsLentAfter M.row manifest.entry (option_map handed_of workspace.entry)
            (roots_of Fs.Roots.ARE_FOUND (Fs.root_for fs)) (Fs.may_find fs) (Fs.names_at fs)
            result) }
        ensures outcome { Meets (λ p. held p.0.now)
            (complete (held manifest.old)
            (option_map handed_of workspace.entry)
            (roots_of Fs.Roots.ARE_FOUND (Fs.root_for fs)) (Fs.names_at fs)) result }
        ensures completed { IfOk result
            (λ p. IsCompleted manifest.old (option_map handed_of workspace.entry)
            (roots_of Fs.Roots.ARE_FOUND (Fs.root_for fs)) (Fs.may_find fs) (Fs.names_at fs)
            p.0.now) }
        ensures wrapped { IfErr result (IsRefusedBy (held manifest.old)
            (option_map handed_of workspace.entry)
            (roots_of Fs.Roots.ARE_FOUND (Fs.root_for fs)) (Fs.may_find fs)
            (MayLose Fs.Roots.ARE_FOUND (Fs.may_refuse_root fs)) (Fs.may_refuse fs)) }
        ensures features { IfOk result
            (λ p. IsResolvedFor (limit_of self.now) (held p.0.now)
            F.Fn (filter_of self.now) p.1) }
    {
        // The proof by hand walks through these lines, and names each local that they make: what
        // may change goes into `resolved`.
        let completed = manifest.complete_from_abstract_filesystem(alloc, fs, workspace);
        self.resolved(shared(manifest), completed, alloc)
    }

    // The completed manifest, with what its features resolve to; a refusal of completion stands for
    // both. It is handed in, since `complete_and_parse` may have no branch: its proof by hand walks
    // through each.
    fn resolved<'m, M>(
        &self,
        manifest: &'m Manifest<M>,
        completed: Result<(), Error>,
        alloc: Global,
    ) -> Result<(&'m Manifest<M>, Features<'m, 'm, S>), Error>
        requires { HasNameFilter F.Fn (filter_of self.now) }
        ensures refused { IfErr completed (λ e. result ≡ Err e) }
        ensures memory { OnOk completed (IfErr result (λ e. e ≡ Memory)) }
        ensures lent { IfOk result (λ p. p.0 ≡ manifest.entry) }
        ensures features { IfOk result
            (λ p. IsResolvedFor (limit_of self.now) (held p.0.now)
            F.Fn (filter_of self.now) p.1) }
    {
        completed?;
        let features = self.parse(alloc, manifest)?;
        Ok((manifest, features))
    }
}
