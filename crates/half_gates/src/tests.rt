use super::*;
use std::test::Fail;

#[test]
fn hashes(rt: HostRuntime) -> Result<(), Fail> {
    // The first row is a message of 24 bytes of the short SHA-256 vectors of NIST.
    let rows: [(Label, u64, Label); 4] = [
        (
            0x0041_adbc_ef38_037c_971d_6d15_0113_9947,
            0x4133_aefb_ca6b_cf7e,
            0xc8d8_93a4_9451_e5b1_fdc8_fe59_2b4b_ebfe,
        ),
        (0x0, 0x0, 0x886c_4e50_7c9a_b4f8_de56_b2b6_cf8e_909d),
        (0x1, 0x0, 0x2ddc_a5cd_e947_a39a_d921_092c_02b6_ed32),
        (
            0xffff_ffff_ffff_ffff_ffff_ffff_ffff_ffff,
            0xffff_ffff_ffff_ffff,
            0x63e6_8651_c891_8c1e_63e5_7015_89f7_a544,
        ),
    ];
    for (label, tweak, wanted) in rows {
        assert_eq!(rt; hash_label(label, tweak), wanted);
    }
    Ok(())
}

#[test]
fn gates(rt: HostRuntime) -> Result<(), Fail> {
    // Each row: delta, both zero labels, the gate, and what garbling it gives.
    let rows: [(Label, Label, Label, u64, (Label, Label, Label)); 4] = [
        (
            0xff01,
            10,
            12,
            0x4,
            (
                0x3942_7352_bf22_9e66_9d64_7795_568c_7375,
                0x7180_f09e_0f08_4fa5_2995_d776_92a1_5627,
                0x64c1_2d5f_3825_c13c_7b45_0d4d_cfde_415d,
            ),
        ),
        (
            0x0123_4567_89ab_cdef_fedc_ba98_7654_3211,
            11,
            12,
            0x0,
            (
                0xdd99_cff6_b0ec_3252_8598_18b4_4c26_2d43,
                0x15a2_4ee7_57f1_3430_e4bb_abf9_12c0_8445,
                0x0890_0749_28de_07cb_b0d4_f555_b34c_08c4,
            ),
        ),
        (
            0xffff_ffff_ffff_ffff_ffff_ffff_ffff_ffff,
            10,
            13,
            0x1,
            (
                0xc634_3993_53b7_550e_413e_0624_b294_4e63,
                0x6b2e_96c8_4db5_34a3_4b84_cf79_0eea_6c23,
                0xecfb_2dc6_b8c3_cd84_2420_0eb8_1c43_be23,
            ),
        ),
        (
            0x3,
            7,
            9,
            0x7fff_ffff_ffff_ffff,
            (
                0x98ef_9c16_1665_4311_16aa_0c25_b8d8_136b,
                0x3f5b_9684_ca2d_2213_a207_fb95_5a36_205a,
                0x85dc_ed87_86c0_16eb_fc4f_8a10_965e_44b2,
            ),
        ),
    ];
    for (delta, a, b, gate, wanted) in rows {
        if delta % 2 == 1 && gate < 1 << 63 {
            assert_eq!(rt; garble_and(delta, a, b, gate), wanted);
        }
        let (tg, te, zero) = wanted;
        assert_eq!(rt; eval_and(a, b, tg, te, gate), zero);
        assert_eq!(rt; eval_and(a ^ delta, b, tg, te, gate), zero);
        assert_eq!(rt; eval_and(a, b ^ delta, tg, te, gate), zero);
        assert_eq!(rt; eval_and(a ^ delta, b ^ delta, tg, te, gate), zero ^ delta);
    }
    half_gates_make_and();
    Ok(())
}
