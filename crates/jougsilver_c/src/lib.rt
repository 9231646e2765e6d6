// The calls of the host, a C program, as it links them: each is the call of `jougsilver` of that name and says the same. They stand in a crate of their own
// since an archive for C is no library for other crates. C sees each slice as two arguments, where it begins and how many bytes it has.
// That they answer numbers is the C interface, and each stands here by itself, since C links it by its name.
#![tactic(auto)]

ghost use Rattle.std.specs.Prelude.{◌≡◌, length};
ghost use Rattle.jougsilver.specs.Host.{host_reply, host_refusal, check_reply, check_refusal, all_reply, all_refusal};
ghost use Rattle.transfer.specs.Writing.{buffered};

// Judges the component at a place of a sheet, in its tree.
#[unsafe(no_mangle)]
pub extern "C" fn jougsilver_judge(sheet: &[u8], place: usize, reply: &mut [u8], at: usize) -> u32
    ensures answer { result ≡ host_refusal sheet.now place (length reply.old) at }
    ensures bytes { reply.new ≡ buffered (host_refusal sheet.now place (length reply.old) at) reply.old at (host_reply sheet.now place) }
{
    jougsilver::jougsilver_judge(sheet, place, reply, at)
}

// Checks a whole sheet.
#[unsafe(no_mangle)]
pub extern "C" fn jougsilver_check(sheet: &[u8], reply: &mut [u8], at: usize) -> u32
    ensures answer { result ≡ check_refusal (length reply.old) at }
    ensures bytes { reply.new ≡ buffered (check_refusal (length reply.old) at) reply.old at (check_reply sheet.now) }
{
    jougsilver::jougsilver_check(sheet, reply, at)
}

// Judges every component of a sheet in one pass.
#[unsafe(no_mangle)]
pub extern "C" fn jougsilver_judge_all(sheet: &[u8], reply: &mut [u8], at: usize) -> u32
    ensures answer { result ≡ all_refusal sheet.now (length reply.old) at }
    ensures bytes { reply.new ≡ buffered (all_refusal sheet.now (length reply.old) at) reply.old at (all_reply sheet.now) }
{
    jougsilver::jougsilver_judge_all(sheet, reply, at)
}
