// The search for a free extent, exported alone so that the bench can time it. Calls for a volume stand in `goofs`.
#![tactic(auto)]

ghost use Rattle.std.specs.Prelude.{◌≡◌};
ghost use Rattle.model.specs.Disk.{view, on_image};
ghost use Rattle.model.specs.Opened.{Readable};
ghost use Rattle.model.specs.Catalogue.{catalogue_of, free_extent};
ghost use Rattle.search.specs.Numbers.{extent_numbers, free_extent_numbers};

#[repr(C)]
#[derive(Clone, Copy)]
pub struct FreeExtentResult {
    pub code: u64,
    pub extent: u64,
}

fn search_in(img: &[u8]) -> FreeExtentResult
    requires { Readable img.now }
    ensures { result ≡ extent_numbers (free_extent (catalogue_of (view img.now))) }
{
    let g = volume::geometry_in(img);
    match table::free_extent(img, g) {
        Some(e) => FreeExtentResult {
            code: 0,
            extent: e as u64,
        },
        None => FreeExtentResult {
            code: 13,
            extent: 0,
        },
    }
}

// The lowest free extent; 13 where there is none, 1 to 3 as in every call. Soundness isn't judged.
#[unsafe(no_mangle)]
pub extern "C" fn goofs_free_extent(img: &[u8]) -> FreeExtentResult
    ensures { result ≡ on_image free_extent_numbers img.now }
{
    match volume::image_verdict(img) {
        Ok(()) => search_in(img),
        Err(refusal) => FreeExtentResult {
            code: refusal.number(),
            extent: 0,
        },
    }
}
