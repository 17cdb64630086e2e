//! What the program writes of a completed manifest.
ghost use Rattle.std.specs.Prelude.{◌≡◌, ◌++◌, IfErr, IfOk, OnOk, map, option_map, string_bytes};
ghost use Rattle.std.specs.{List.flat_map, Io.KnownBytes.Appends, Option.option_copied};
ghost use Rattle.cargo_toml_program.specs.Completed.{cell_text, completion_text, library_text};
ghost use Rattle.cargo_toml_program.specs.Completed.{package_text, place_text, product_line};
ghost use Rattle.cargo_toml_program.specs.Completed.{readme_of, required_text};
ghost use Rattle.cargo_toml_manifest.specs.Manifests.{held};
ghost use Rattle.cargo_toml_package.specs.Packages.{held_package};
ghost use Rattle.cargo_toml_parts.specs.Inherits.{inheritable_map};
ghost use Rattle.cargo_toml_program.specs.Lines.{between_commas};
ghost use Rattle.cargo_toml_program.specs.Printing.{IsOfOutput};
ghost use Rattle.cargo_toml_parts.specs.SettingAnswers.{shown};
ghost use Rattle.cargo_toml_parts.specs.Settings.{file_meaning};
ghost use Rattle.cargo_toml_parts.specs.Products.{product_meaning};

use cargo_toml_manifest::Manifest;
use cargo_toml_package::Package;
use cargo_toml_parts::{Error, Inheritable, OptionalFile, Product};
use std::alloc::{AllocError, Global};
use std::io::Write;

/// Writes to `output` what completion finds around a manifest: a line for its library, one for each
/// binary, example, test and benchmark, and, where the manifest has a package, one for its build
/// script and one for its readme.
///
/// What isn't known, as the name of a product that has none or a readme that is left to the
/// workspace, is written `-`. Names and paths are written as they are, line feeds and all. Refuses
/// with `Io` where `output` can't be written, and with `Memory` when out of memory. Nothing is
/// written before all lines stand.
pub fn print_complete<Metadata, W: Write>(
    alloc: Global,
    manifest: &Manifest<Metadata>,
    output: &mut W,
) -> Result<(), Error>
    ensures printed { OnOk result (Appends (W.contents output.old) (W.contents output.new)
        (completion_text (held manifest.now))) }
    ensures refused { IfErr result IsOfOutput }
{
    let lines = completion_lines(alloc, manifest)?;
    output.write_all(lines.as_bytes())?;
    output.flush()?;
    Ok(())
}

/// The lines of the products, list by list, and then those of the package. It fails only when out
/// of memory.
pub fn completion_lines<Metadata>(
    alloc: Global,
    manifest: &Manifest<Metadata>,
) -> Result<String, AllocError>
    ensures { IfOk result (λ text. string_bytes text ≡ completion_text (held manifest.now)) }
{
    let mut text = String::new(alloc);
    write_library(&mut text, &manifest.lib)?;
    write_products(&mut text, "bin", manifest.bin.as_slice())?;
    write_products(&mut text, "example", manifest.example.as_slice())?;
    write_products(&mut text, "test", manifest.test.as_slice())?;
    write_products(&mut text, "bench", manifest.bench.as_slice())?;
    write_package(&mut text, &manifest.package)?;
    Ok(text)
}

fn write_library(text: &mut String, library: &Option<Product>) -> Result<(), AllocError>
    ensures { OnOk result (string_bytes text.new ≡ string_bytes text.old
        ++ library_text (option_map product_meaning library.now)) }
{
    let Some(library) = library else {
        return Ok(());
    };
    text.push_str("lib")?;
    write_place(text, library)?;
    text.push_str("\n")
}

/// A line for each product of a list.
fn write_products(text: &mut String, kind: &str, products: &[Product]) -> Result<(), AllocError>
    ensures { OnOk result (string_bytes text.new ≡ string_bytes text.old
        ++ flat_map (product_line kind.now) (map product_meaning products.now)) }
{
    for product in products {
        write_product(text, kind, product)?;
    }
    Ok(())
}

fn write_product(text: &mut String, kind: &str, product: &Product) -> Result<(), AllocError>
    ensures { OnOk result (string_bytes text.new ≡ string_bytes text.old
        ++ product_line kind.now (product_meaning product.now)) }
{
    text.push_str(kind)?;
    write_place(text, product)?;
    write_required(text, product)?;
    text.push_str("\n")
}

/// The features that a product requires.
fn write_required(text: &mut String, product: &Product) -> Result<(), AllocError>
    ensures { OnOk result (string_bytes text.new ≡ string_bytes text.old
        ++ required_text (product_meaning product.now)) }
{
    write_texts(text, " | required: ", product.required_features.as_slice())
}

/// The name and the path of a product.
fn write_place(text: &mut String, product: &Product) -> Result<(), AllocError>
    ensures { OnOk result (string_bytes text.new ≡ string_bytes text.old
        ++ place_text (product_meaning product.now)) }
{
    write_cell(text, product.name.as_deref())?;
    write_cell(text, product.path.as_deref())
}

/// Writes what follows in a line, where it is known.
fn write_cell(text: &mut String, cell: Option<&str>) -> Result<(), AllocError>
    ensures { OnOk result (string_bytes text.new ≡ string_bytes text.old
        ++ cell_text (option_copied cell.entry)) }
{
    text.push_str(" | ")?;
    match cell {
        Some(cell) => text.push_str(cell),
        None => text.push_str("-"),
    }
}

/// Writes a title and the items with commas between them, or `-` where there are none.
fn write_texts(text: &mut String, title: &str, items: &[String]) -> Result<(), AllocError>
    ensures { OnOk result (string_bytes text.new ≡ string_bytes text.old
        ++ (title.now ++ between_commas (λ t. t) (map string_bytes items.now))) }
{
    text.push_str(title)?;
    let Some((first, rest)) = items.split_first() else {
        return text.push_str("-");
    };
    text.push_str(first.as_str())?;
    for item in rest {
        text.push_str(", ")?;
        text.push_str(item.as_str())?;
    }
    Ok(())
}

/// The build script and the readme, where there is a package.
fn write_package<Metadata>(
    text: &mut String,
    package: &Option<Package<Metadata>>,
) -> Result<(), AllocError>
    ensures { OnOk result (string_bytes text.new ≡ string_bytes text.old
        ++ package_text (option_map held_package «package».now)) }
{
    let Some(package) = package else {
        return Ok(());
    };
    text.push_str("build")?;
    write_cell(text, build_of(&package.build))?;
    text.push_str("\nreadme")?;
    write_cell(text, readme_of(&package.readme))?;
    text.push_str("\n")
}

/// How the build script is displayed, where it is known.
fn build_of(build: &Option<OptionalFile>) -> Option<&str>
    ensures { option_copied result ≡ option_map shown (option_map file_meaning build.now) }
{
    match build {
        Some(file) => Some(file.display()),
        None => None,
    }
}

/// How the readme is displayed, where it isn't left to the workspace.
fn readme_of(readme: &Inheritable<OptionalFile>) -> Option<&str>
    ensures { option_copied result ≡ readme_of (inheritable_map file_meaning readme.now) }
{
    match readme {
        Inheritable::Set(file) => Some(file.display()),
        Inheritable::Inherited => None,
    }
}
