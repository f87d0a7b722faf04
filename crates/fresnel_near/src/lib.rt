// How near the power that a bare surface reflects head-on is to the exact fraction. No code.
