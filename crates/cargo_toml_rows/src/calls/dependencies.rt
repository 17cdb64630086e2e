//! Dependencies: questions, and details that are made of mere requirements.
use crate::row::Shown;
use cargo_toml::{Dependency, Error, FromValue, Value};
use std::alloc::Global;

/// The dependency that a value is read as.
fn dependency(alloc: Global, value: &str) -> Result<Dependency, Error> {
    Dependency::from_value(alloc, Value::from_str(alloc, value)?)
}

/// What is answered to who asks for the requirement, and for the detail, of one that is inherited.
pub fn questions_to_inherited(alloc: Global) -> Shown {
    let mut inherited = dependency(alloc, "{ workspace = true }")?;
    let req = match inherited.try_req() {
        Ok(_) => String::from_str(alloc, "answered")?,
        Err(fault) => format!(in alloc; "{fault:?}")?,
    };
    let detail = match inherited.try_detail_mut(alloc) {
        Ok(_) => String::from_str(alloc, "answered")?,
        Err(fault) => format!(in alloc; "{fault:?}")?,
    };
    Ok(format!(in alloc; "try_req(): {req}\ntry_detail_mut(): {detail}\n")?)
}

/// The requirement of a detail without one.
pub fn try_req_without_version(alloc: Global) -> Shown {
    let detailed = dependency(alloc, "{ path = 'p' }")?;
    Ok(format!(in alloc; "try_req(): {:?}\n", detailed.try_req()?)?)
}

/// Where a detail comes from that has the key `rev` alone, and one with `git`.
pub fn rev_is_not_crates_io(alloc: Global) -> Shown {
    let revised = dependency(alloc, "{ rev = '4c59b707' }")?;
    let _ = revised.try_req()?;
    let from_git = dependency(alloc, "{ git = 'g' }")?;
    Ok(format!(in alloc;
        "is_crates_io(): {}\ngit_rev(): {:?}\ngit(): {:?}, {:?}\n",
        revised.is_crates_io(),
        revised.git_rev(),
        revised.git(),
        from_git.git()
    )?)
}

/// What is answered of a detail that says something to each question.
fn answers(alloc: Global, dependency: &Dependency) -> Shown {
    let _ = dependency.try_req()?;
    Ok(format!(in alloc;
        "req() {}, detail() {}, optional() {}, package() {:?}, req_features() {:?}\n",
        dependency.req().is_some(),
        dependency.detail().is_some(),
        dependency.optional(),
        dependency.package(),
        dependency.req_features()
    )?)
}

/// The questions to a mere requirement and to a detail.
pub fn questions(alloc: Global) -> Shown {
    let simple = answers(alloc, &dependency(alloc, "'1'")?)?;
    let text = "{ package = 'q', features = ['f'], optional = true }";
    let detailed = answers(alloc, &dependency(alloc, text)?)?;
    Ok(format!(in alloc; "Simple: {simple}Detailed: {detailed}")?)
}

/// The details that both calls make of a mere requirement.
pub fn simple_becomes_detailed(alloc: Global) -> Shown {
    let mut tried = dependency(alloc, "'1.2'")?;
    let tried = format!(in alloc; "{:?}", tried.try_detail_mut(alloc)?)?;
    let mut known = dependency(alloc, "'1.2'")?;
    let _ = known.try_req()?;
    let known = format!(in alloc; "{:?}", known.detail_mut(alloc)?)?;
    Ok(format!(in alloc; "try_detail_mut(): {tried}\ndetail_mut(): {known}\n")?)
}
