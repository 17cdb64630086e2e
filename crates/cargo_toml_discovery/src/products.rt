//! Copies of products, and their order.
ghost use Rattle.std.specs.Prelude.{◌≡◌, IfOk, OnOk};
ghost use Rattle.cargo_toml_discovery.specs.Discovering.{meanings};
ghost use Rattle.cargo_toml_discovery.specs.Found.{is_path_of};
ghost use Rattle.cargo_toml_discovery.specs.Sorting.{in_order, product_cmp};
ghost use Rattle.cargo_toml_parts.specs.Products.{product_meaning};

use cargo_toml_parts::Product;
use std::alloc::{AllocError, Global};
use std::cmp::Ordering;

// Compares two products by name, then by path.
fn compare(a: &Product, b: &Product) -> Ordering
    ensures { result ≡ product_cmp (product_meaning a.now) (product_meaning b.now) }
{
    a.name.cmp(&b.name).then_with(|| a.path.cmp(&b.path))
}

/// Puts products in order, by name and then by path. Equal ones stay in their order. It fails only
/// when out of memory; nothing is said of the products then.
pub fn sort_products(products: &mut Vec<Product>) -> Result<(), AllocError>
    ensures ok { OnOk result (meanings products.new.items
        ≡ in_order (meanings products.old.items)) }
{
    products.sort_by(|a, b| compare(a, b))
}

/// A copy of a product, which holds the same.
pub fn copied(product: &Product) -> Result<Product, AllocError>
    ensures { IfOk result (λ copy. product_meaning copy ≡ product_meaning product.now) }
{
    product.clone()
}

/// Copies of products, which hold the same.
pub fn copies(alloc: Global, products: &[Product]) -> Result<Vec<Product>, AllocError>
    ensures { IfOk result (λ list. meanings list.items ≡ meanings products.now) }
{
    let mut list = Vec::with_capacity(alloc, products.len())?;
    for product in products {
        list.push(copied(product)?)?;
    }
    Ok(list)
}

/// Whether some product has the path.
pub fn is_path_of(products: &[Product], path: &str) -> bool
    ensures { result ≡ is_path_of (meanings products.now) path.now }
{
    for product in products {
        if let Some(own) = &product.path {
            if own.as_str() == path {
                return true;
            }
        }
    }
    false
}
