// The brick folders of the folder that the program runs in.
use ec_folder::FolderStore;
use std::alloc::AllocError;
use std::fs;
use std::io::ErrorKind;
use std::rt::Files;

/// The stores of the bricks `brick0`, `brick1` and on, up to the first that isn't there. Where one is no folder, its store
/// fails at its first call.
pub fn bricks_of_folders<R: Files + AllocGlobal>(
    rt: &R,
) -> Result<Vec<FolderStore<&R>>, AllocError> {
    let mut stores = Vec::new(rt.alloc());
    for number in 0..u64::MAX {
        let path = format!(in rt.alloc(); "brick{number}")?;
        if !is_there(rt, path.as_str())? {
            break;
        }
        stores.push(FolderStore::open(rt, path.as_str())?)?;
    }
    Ok(stores)
}

/// Whether there is anything at a path, a link that leads nowhere among it.
fn is_there(rt: &impl Files, path: &str) -> Result<bool, AllocError> {
    match fs::symlink_metadata(rt, path) {
        Ok(_) => Ok(true),
        Err(error) if error.kind() == ErrorKind::OutOfMemory => Err(AllocError),
        Err(_) => Ok(false),
    }
}
