// What a station's dossier says: its current records, by mark and key. The definitions are in specs/, their laws in proofs/.
#![tactic(auto)]
