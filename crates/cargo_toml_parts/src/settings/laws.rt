// Laws of the settings' comparisons, defaults and numbers, each as the contract of a function.
ghost use Rattle.std.specs.Prelude.{◌≡◌};
ghost use Rattle.cargo_toml_parts.specs.declared.settings.Edition.TheVariants.{E2015};
ghost use Rattle.cargo_toml_parts.specs.declared.settings.Resolver.TheVariants.{V1};
ghost use Rattle.cargo_toml_parts.specs.SettingsLaws.{ComparesBy, HasDefault};
ghost use Rattle.cargo_toml_parts.specs.SettingsLaws.{edition_number, resolver_number};
ghost use Rattle.cargo_toml_parts.specs.SettingsLaws.{debug_worth, strip_place, lto_place};

use crate::profile_settings::{DebugSetting, LtoSetting, StripSetting};
use crate::settings::{Edition, Resolver};

fn comparisons()
    ensures edition { ComparesBy edition_number
        ⟦<Edition as Ord>⟧.cmp ⟦<Edition as PartialEq>⟧.eq }
    ensures resolver { ComparesBy resolver_number
        ⟦<Resolver as Ord>⟧.cmp ⟦<Resolver as PartialEq>⟧.eq }
    ensures debug { ComparesBy debug_worth
        ⟦<DebugSetting as Ord>⟧.cmp ⟦<DebugSetting as PartialEq>⟧.eq }
    ensures strip { ComparesBy strip_place
        ⟦<StripSetting as Ord>⟧.cmp ⟦<StripSetting as PartialEq>⟧.eq }
    ensures lto { ComparesBy lto_place
        ⟦<LtoSetting as Ord>⟧.cmp ⟦<LtoSetting as PartialEq>⟧.eq }
{}

fn defaults()
    ensures edition { HasDefault ⟦<Edition as Default>⟧.is_default E2015 }
    ensures resolver { HasDefault ⟦<Resolver as Default>⟧.is_default V1 }
{}

fn edition_worth(edition: Edition) -> u16
    ensures { result ≡ edition_number edition }
{
    edition as u16
}

fn resolver_worth(resolver: Resolver) -> u8
    ensures { result ≡ resolver_number resolver }
{
    resolver as u8
}

fn debug_setting_worth(setting: DebugSetting) -> u8
    ensures { result ≡ debug_worth setting }
{
    setting as u8
}
