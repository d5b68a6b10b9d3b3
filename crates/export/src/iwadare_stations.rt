// The Iwadare-Massey stations: starts and steps, without a table.
ghost use Rattle.iwadare.specs.Memory.{coder_words, decoder_words};
ghost use Rattle.export.specs.Promises.{IwadareStartsBy, IwadareCodesBy, IwadareDecodesBy};

use crate::answer::refused;
use crate::coded::BurstCoded;
use crate::iwadare_decoded::BurstIwadareDecoded;
use iwadare::code::code;
use iwadare::decode::decode;
use iwadare::start::{start_coder, start_decoder};

#[unsafe(no_mangle)]
pub extern "C" fn burst_iwadare_start_coder(words: &mut [u64]) -> u64
    ensures { IwadareStartsBy coder_words words.old result words.new }
{
    refused(start_coder(words))
}

#[unsafe(no_mangle)]
pub extern "C" fn burst_iwadare_start_decoder(words: &mut [u64]) -> u64
    ensures { IwadareStartsBy decoder_words words.old result words.new }
{
    refused(start_decoder(words))
}

#[unsafe(no_mangle)]
pub extern "C" fn burst_iwadare_code(words: &mut [u64], info: u16) -> BurstCoded
    ensures { IwadareCodesBy words.old info result words.new }
{
    code(words, info).into()
}

#[unsafe(no_mangle)]
pub extern "C" fn burst_iwadare_decode(words: &mut [u64], received: u16) -> BurstIwadareDecoded
    ensures { IwadareDecodesBy words.old received result words.new }
{
    decode(words, received).into()
}
