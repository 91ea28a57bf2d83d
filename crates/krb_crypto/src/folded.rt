//! The constants of usages (RFC 3961, section 5.3), folded to a block. Kerberos has usages up to 25 (RFC 4120, section 7.5.1;
//! RFC 4121, section 2): theirs are folded here once and for all, as numbers whose highest octet comes first.

ghost use Rattle.std.specs.Prelude.{◌≡◌};
ghost use Rattle.krb_crypto.specs.Fold.{n_fold};
ghost use Rattle.krb_crypto.specs.Suite.{usage_constant, AreFolds};

use crate::fold::n_fold;

/// The byte after a usage in the constant of the encryption key.
const ENCRYPTION: u8 = 0xaa;

/// The byte after a usage in the constant of the key for the checksum of an encrypted text.
const INTEGRITY: u8 = 0x55;

/// The byte after a usage in the constant of the key for a checksum without an encrypted text.
const CHECKSUM: u8 = 0x99;

/// The folds for keys of encryption, of the usages 0 to 25.
static ENCRYPTION_FOLDS: [u128; 26] = [
    0xa5a7d3e9_f4a55002_a954aa55_2a80154a,
    0xae2c160b_04ad5006_ab55aad5_6a80355a,
    0xb5b0582c_14b6500a_ad56ab55_aa80556a,
    0xbe349a4d_24be500e_af57abd5_ea80757a,
    0xc5b7dc6e_34c75112_b158ac56_2a80958a,
    0xce3c1e8f_44cf5116_b359acd6_6a80b59a,
    0xd5c060b0_54d8511a_b55aad56_aa80d5aa,
    0xde44a2d1_64e0511e_b75badd6_ea80f5ba,
    0xe5c7e3f2_74e95223_b95cae57_2a8115ca,
    0xee4c2613_84f15227_bb5daed7_6a8135da,
    0xf5d06834_94fa522b_bd5eaf57_aa8155ea,
    0xfe54aa55_a502522f_bf5fafd7_ea8175fa,
    0x05d7ec76_b50b5333_c160b058_2a81960b,
    0x0e5c2e97_c5135337_c361b0d8_6a81b61b,
    0x15e070b8_d51c533b_c562b158_aa81d62b,
    0x1e64b2d9_e524533f_c763b1d8_ea81f63b,
    0x25e7f3f9_f52d5444_ca64b259_2a82164b,
    0x2e6c361b_05355448_cc65b2d9_6a82365b,
    0x35f0783c_153e544c_ce66b359_aa82566b,
    0x3e74ba5d_25465450_d067b3d9_ea82767b,
    0x45f7fc7e_354f5554_d268b45a_2a82968b,
    0x4e7c3e9f_45575558_d469b4da_6a82b69b,
    0x560080c0_5560555c_d66ab55a_aa82d6ab,
    0x5e84c2e1_65685560_d86bb5da_ea82f6bb,
    0x66080402_75715665_da6cb65b_2a8316cb,
    0x6e8c4623_85795669_dc6db6db_6a8336db,
];

/// The folds for keys of the checksums of sealed texts.
static INTEGRITY_FOLDS: [u128; 26] = [
    0x52d3e9f4_fa52a801_54aa552a_95400aa5,
    0x5b582c16_0a5aa805_56ab55aa_d5402ab5,
    0x62dc6e37_1a63a809_58ac562b_15404ac5,
    0x6b60b058_2a6ba80d_5aad56ab_55406ad5,
    0x72e3f279_3a74a911_5cae572b_95408ae5,
    0x7b68349a_4a7ca915_5eaf57ab_d540aaf5,
    0x82ec76bb_5a85a919_60b0582c_1540cb05,
    0x8b70b8dc_6a8da91d_62b158ac_5540eb15,
    0x92f3f9fd_7a96aa22_64b2592c_95410b25,
    0x9b783c1e_8a9eaa26_66b359ac_d5412b35,
    0xa2fc7e3f_9aa7aa2a_68b45a2d_15414b45,
    0xab80c060_aaafaa2e_6ab55aad_55416b55,
    0xb3040281_bab8ab32_6cb65b2d_95418b65,
    0xbb8844a2_cac0ab36_6eb75bad_d541ab75,
    0xc30c86c3_dac9ab3a_70b85c2e_1541cb85,
    0xcb90c8e4_ead1ab3e_72b95cae_5541eb95,
    0xd3140a04_fadaac43_75ba5d2e_95420ba5,
    0xdb984c26_0ae2ac47_77bb5dae_d5422bb5,
    0xe31c8e47_1aebac4b_79bc5e2f_15424bc5,
    0xeba0d068_2af3ac4f_7bbd5eaf_55426bd5,
    0xf3241289_3afcad53_7dbe5f2f_95428be5,
    0xfba854aa_4b04ad57_7fbf5faf_d542abf5,
    0x032c96cb_5b0dad5b_81c06030_1542cc06,
    0x0bb0d8ec_6b15ad5f_83c160b0_5542ec16,
    0x13341a0d_7b1eae64_85c26130_95430c26,
    0x1bb85c2e_8b26ae68_87c361b0_d5432c36,
];

/// The folds for keys of checksums alone.
static CHECKSUM_FOLDS: [u128; 26] = [
    0x95170b85_c294c802_6532994c_a6401329,
    0x9d9b4da6_d29cc806_673399cc_e6403339,
    0xa51f8fc7_e2a5c80a_69349a4d_26405349,
    0xada3d1e8_f2adc80e_6b359acd_66407359,
    0xb527140a_02b6c912_6d369b4d_a6409369,
    0xbdab562b_12bec916_6f379bcd_e640b379,
    0xc52f984c_22c7c91a_71389c4e_2640d389,
    0xcdb3da6d_32cfc91e_73399cce_6640f399,
    0xd5371b8e_42d8ca23_753a9d4e_a64113a9,
    0xddbb5daf_52e0ca27_773b9dce_e64133b9,
    0xe53f9fd0_62e9ca2b_793c9e4f_264153c9,
    0xedc3e1f1_72f1ca2f_7b3d9ecf_664173d9,
    0xf5472412_82facb33_7d3e9f4f_a64193e9,
    0xfdcb6633_9302cb37_7f3f9fcf_e641b3f9,
    0x054fa854_a30bcb3b_8140a050_2641d40a,
    0x0dd3ea75_b313cb3f_8341a0d0_6641f41a,
    0x15572b95_c31ccc44_8642a150_a642142a,
    0x1ddb6db6_d324cc48_8843a1d0_e642343a,
    0x255fafd7_e32dcc4c_8a44a251_2642544a,
    0x2de3f1f8_f335cc50_8c45a2d1_6642745a,
    0x3567341a_033ecd54_8e46a351_a642946a,
    0x3deb763b_1346cd58_9047a3d1_e642b47a,
    0x456fb85c_234fcd5c_9248a452_2642d48a,
    0x4df3fa7d_3357cd60_9449a4d2_6642f49a,
    0x55773b9e_4360ce65_964aa552_a64314aa,
    0x5dfb7dbf_5368ce69_984ba5d2_e64334ba,
];

/// The constant of a usage: the usage in big-endian order, and an octet.
fn usage_constant(usage: u32, octet: u8) -> [u8; 5]
    ensures { result ≡ usage_constant usage octet }
{
    let [a, b, c, d] = usage.to_be_bytes();
    [a, b, c, d, octet]
}

/// The folded constant of a usage and an octet, where these are the folds of that octet.
fn folded_constant(folds: &[u128; 26], usage: u32, octet: u8) -> [u8; 16]
    requires { AreFolds octet folds.now }
    ensures { result ≡ n_fold (usage_constant usage octet) }
{
    if usage < 26 {
        folds[usage as usize].to_be_bytes()
    } else {
        n_fold(&usage_constant(usage, octet))
    }
}

/// The folded constant of the key of encryption.
pub fn encryption_block(usage: u32) -> [u8; 16]
    ensures { result ≡ n_fold (usage_constant usage 0xaa) }
{
    folded_constant(&ENCRYPTION_FOLDS, usage, ENCRYPTION)
}

/// The folded constant of the key of the checksum of a sealed text.
pub fn integrity_block(usage: u32) -> [u8; 16]
    ensures { result ≡ n_fold (usage_constant usage 0x55) }
{
    folded_constant(&INTEGRITY_FOLDS, usage, INTEGRITY)
}

/// The folded constant of the key of a checksum alone.
pub fn checksum_block(usage: u32) -> [u8; 16]
    ensures { result ≡ n_fold (usage_constant usage 0x99) }
{
    folded_constant(&CHECKSUM_FOLDS, usage, CHECKSUM)
}
