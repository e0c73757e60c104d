use generated_module::generate;
use iv_words::Memory;

const OF_TWO: &str = "module big;
area acc : uint32_t;
proc p0(x : uint32_t) { let y = x % 97 + 0; *acc = *acc *% 31 +% y; }
proc p1(x : uint32_t) { let y = x % 97 + 1; *acc = *acc *% 31 +% y; }
export proc all(x : uint32_t) -> uint32_t {
  p0(x);
  p1(x);
  return *acc;
}
";

#[test]
fn generates_a_module(rt: HostRuntime) -> Result<(), Memory> {
    let text = generate(rt.alloc(), 2)?;
    assert_eq!(rt; text.as_slice(), OF_TWO.as_bytes());
    assert_eq!(rt; generate(rt.alloc(), 3)?.len(), 331);
    Ok(())
}
