// Pages, sealed and mended.
ghost use Rattle.std.specs.Prelude.{◌≡◌, true, length, take};
ghost use Rattle.codec.specs.Pages.{paged, data_in};

// Behind 4,096 bytes of data, the mark and what mends a page.
#[unsafe(no_mangle)]
pub extern "C" fn codec_seal(page: &mut [u8], mark: &[u8]) -> bool
    ensures page_after { result ≡ true → page.new ≡ paged mark.now (take 4096 page.old) }
    ensures value { length page.old ≡ 4352 → length mark.now ≡ 32 → result ≡ true }
{
    if page.len() != 4352 || mark.len() != 32 {
        return false;
    }
    codec::seal(page, mark);
    true
}

// The data of a page that was read, mended in place.
#[unsafe(no_mangle)]
pub extern "C" fn codec_unseal(page: &mut [u8]) -> bool
    ensures page_after { result ≡ true → take 4096 page.new ≡ data_in page.old }
    ensures value { length page.old ≡ 4352 → result ≡ true }
{
    if page.len() != 4352 {
        return false;
    }
    codec::unseal(page);
    true
}
